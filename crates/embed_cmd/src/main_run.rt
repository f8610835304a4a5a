ghost use Rattle.std.specs.Prelude.{◌⊎◌, ◌≡◌, ℕ, List, ◌++◌, ◌<◌, ◌≤◌, Some, None, Ok, Err, OnOk, OnErr, IfOk, IfErr, IfSome, map, string_bytes, take, length, IsSome, MatchOption};
ghost use Rattle.embed_base.specs.Counts.{Rose, RoseByMore};
ghost use Rattle.embed_base.specs.Answers.{OnFailedWrite, UnlessFailedWrite};
ghost use Rattle.embed_cmd.specs.Words.{command_of, texts_of};
ghost use Rattle.small_parser.specs.Grammar as grammar;
ghost use Rattle.embed_script.specs.Functions.{Modules};
ghost use Rattle.embed_script.specs.ModuleFiles.{AreDecodings};
ghost use Rattle.embed_cmd.specs.Transcript.{IsScriptText, IsTheScriptTranscript, IsTheAskedTranscript, IsAsked, files_of, IsTheTranscript, TellsAll, most_script_bytes, too_long, refused, usage};
ghost use Rattle.embed_cmd.specs.Reading.{IsTree, IsTextEnd, IsScriptEnd, IsTranscriptEnd, OnRead, UnlessRead};
ghost use Rattle.embed_cmd.specs.Headline.{with_more, OnEnd, OnReadFault, OnWriteFault, OnNoMemory, OnUsage, OnTooLongStatus, UnlessReadFault, UnlessWriteFault, UnlessTooLong, IfRead, WritesAll, Completes, NoFaults, WritesPrefix, IsReadFault, IsTooLong, IsTooLongOf, AreReadable, AreReadableFiles, EndsAt};

use crate::asked_files::{Unread, read_asked};
use crate::words::{Asked, read_words};
use crate::write::write_whole;
use embed_base::{Files, PlainString, Sink, SinkError, Status};
use embed_script::{ModuleFile, Transcript, run_script};
use small_lexer::{LexError, tokens};
use small_parser::{ParseError, Script, parse};
use std::alloc::{AllocError, Global};
use std::str;
use wasm_grammar::decodes_once;

/// The line that refuses words.
const USAGE: &str = "usage: jspirun run [--steps N] [--module NAME=PATH]... SCRIPT\n";

/// Words that are no command line.
fn usage(alloc: Global) -> Result<Transcript, AllocError>
    ensures { IfOk result (λ t. t ≡ usage) }
{
    Ok(Transcript {
        status: Status::Usage,
        text: PlainString::from_str(alloc, USAGE)?,
    })
}

/// A file that passes its limit.
fn too_long(alloc: Global, path: &str) -> Result<Transcript, AllocError>
    ensures { IfOk result (λ t. t ≡ too_long path.now) }
{
    let mut text = PlainString::from_str(alloc, "too long: ")?;
    text.push_str(path)?;
    text.push_str("\n")?;
    Ok(Transcript {
        status: Status::TooLong,
        text,
    })
}

/// Bytes that are no script.
fn refused(alloc: Global) -> Result<Transcript, AllocError>
    ensures { IfOk result (λ t. t ≡ refused) }
{
    Ok(Transcript {
        status: Status::ScriptRefused,
        text: PlainString::from_str(alloc, "script: not yet\n")?,
    })
}

/// Why there is no transcript.
#[derive(Debug, Drop)]
enum Fault {
    Read,
    NoMemory,
}

impl From<AllocError> for Fault {
    ghost use Rattle.embed_cmd.specs.declared.main_run.Fault.TheVariants.{NoMemory};
    ghost use Rattle.std.specs.Prelude.{◌≡◌};

    ghost from_gives = { λ _ e. e ≡ NoMemory };

    fn from(_: AllocError) -> Self {
        Fault::NoMemory
    }
}

/// The tree of a script's bytes, if they are a script.
fn read_script(alloc: Global, bytes: &[u8]) -> Result<Option<Script>, AllocError>
    requires { length bytes.now ≤ most_script_bytes }
    ensures { IfOk result (λ found. MatchOption found ((d : grammar.Script) → ¬ IsScriptText bytes.now d) (λ tree. IsTree bytes.now tree)) }
{
    let Ok(text) = str::from_utf8(bytes) else {
        return Ok(None);
    };
    let tokens = match tokens(alloc, text) {
        Ok(tokens) => tokens,
        Err(LexError::NotYet) => return Ok(None),
        Err(LexError::NoMemory) => return Err(AllocError),
    };
    match parse(alloc, tokens.as_slice(), bytes.len() as u32) {
        Ok(script) => Ok(Some(script)),
        Err(ParseError::NotYet) => Ok(None),
        Err(ParseError::NoMemory) => Err(AllocError),
    }
}

/// The transcript of a script's bytes, over module files and with a budget for its run.
fn script_transcript(
    alloc: Global,
    bytes: &[u8],
    files: &[ModuleFile],
    budget: u64,
) -> Result<Transcript, AllocError>
    requires { length bytes.now ≤ most_script_bytes }
    ensures exact { IfOk result (λ t. (modules : Modules) → AreDecodings files.now modules → IsTheScriptTranscript modules budget bytes.now t) }
    ensures end { IfOk result (λ t. IsTextEnd t.status) }
{
    match read_script(alloc, bytes)? {
        None => refused(alloc),
        Some(script) => run_script(alloc, &script, files, budget),
    }
}

/// The transcript of what a command line asks for.
fn asked_transcript<F: Files>(
    alloc: Global,
    files: &mut F,
    asked: &Asked,
) -> Result<Transcript, Fault>
    ensures exact { IfOk result (λ t. ((path : List ℕ) → IsAsked asked.now path → IsSome (F.content files.old path)) → IsTheAskedTranscript asked.now (F.content files.old) t) }
    ensures end { IfOk result (λ t. IsScriptEnd t.status) }
    ensures too_long { IfOk result (λ t. OnTooLongStatus t.status (IsTooLongOf (files_of asked.now) (F.absent files.old) (F.content files.old) (F.taken files.old) (F.taken files.new))) }
    ensures readable { IfOk result (λ t. UnlessTooLong t.status (AreReadableFiles (F.absent files.old) (F.content files.old) (files_of asked.now))) }

    ensures read_rose { OnRead result (Rose (F.faults files.old) (F.faults files.new)) }
    ensures read_named { OnRead result (EndsAt (λ file. F.failed files.new ≡ Some file.path) (F.absent files.old) (F.content files.old) (files_of asked.now)) }
    ensures rose_read { UnlessRead result (¬ (F.faults files.old < F.faults files.new)) }
    ensures failed_stays { UnlessRead result (F.failed files.new ≡ F.failed files.old) }

    ensures contents_stay { (name : List ℕ) → F.content files.new name ≡ F.content files.old name }
{
    decodes_once();
    match read_asked(alloc, files, asked) {
        Ok(read) => {
            let modules = read.modules.as_slice();
            let transcript = script_transcript(
                alloc,
                read.script.as_slice(),
                modules,
                asked.budget,
            )?;
            Ok(transcript)
        }
        Err(Unread::TooLong(path)) => Ok(too_long(alloc, path.as_str())?),
        Err(Unread::Failed) => Err(Fault::Read),
        Err(Unread::NoMemory) => Err(Fault::NoMemory),
    }
}

/// The transcript of a command line.
fn command_transcript<F: Files>(
    alloc: Global,
    words: &[String],
    files: &mut F,
) -> Result<Transcript, Fault>
    ensures exact { IfOk result (λ t. TellsAll (texts_of words.now) (F.content files.old) → IsTheTranscript (texts_of words.now) (F.content files.old) t) }
    ensures end { IfOk result (λ t. IsTranscriptEnd t.status) }
    ensures usage_only { IfOk result (λ t. OnUsage t.status (command_of (texts_of words.now) ≡ None)) }
    ensures too_long { IfOk result (λ t. OnTooLongStatus t.status (IsTooLong (texts_of words.now) (F.absent files.old) (F.content files.old) (F.taken files.old) (F.taken files.new))) }
    ensures readable { IfOk result (λ t. UnlessTooLong t.status (AreReadable (texts_of words.now) (F.absent files.old) (F.content files.old))) }

    ensures read { OnRead result (IsReadFault (texts_of words.now) (F.absent files.old) (F.content files.old) (F.faults files.old) (F.faults files.new) (F.failed files.new)) }
    ensures rose_read { UnlessRead result (¬ (F.faults files.old < F.faults files.new)) }
    ensures failed_stays { UnlessRead result (F.failed files.new ≡ F.failed files.old) }

    ensures contents_stay { (name : List ℕ) → F.content files.new name ≡ F.content files.old name }
    ensures untouched { command_of (texts_of words.now) ≡ None → files.new ≡ files.old }
{
    match read_words(alloc, words)? {
        None => Ok(usage(alloc)?),
        Some(asked) => asked_transcript(alloc, files, &asked),
    }
}

/// Writes a transcript, and tells its status or why it wasn't written whole.
fn deliver<O: Sink>(alloc: Global, out: &mut O, transcript: &Transcript) -> Status
    requires { IsTranscriptEnd transcript.now.status }
    ensures ended { OnEnd result ((result ≡ transcript.now.status) × (O.written out.new ≡ with_more (O.written out.old) transcript.now.text)) }
    ensures cut { OnWriteFault result ((size : ℕ) × (O.written out.new ≡ with_more (O.written out.old) (take size transcript.now.text))) }
    ensures starved { OnNoMemory result ((size : ℕ) × (O.written out.new ≡ with_more (O.written out.old) (take size transcript.now.text))) }
    ensures no_read { OnReadFault result ⊥ }

    ensures write_rose { OnWriteFault result (Rose (O.faults out.old) (O.faults out.new)) }
    ensures rose_write { UnlessWriteFault result (¬ (O.faults out.old < O.faults out.new)) }
{
    match write_whole(alloc, out, transcript.text.as_str().as_bytes()) {
        Ok(()) => transcript.status,
        Err(SinkError::Failed) => Status::WriteFault,
        Err(SinkError::NoMemory) => Status::NoMemory,
    }
}

/// All that the program does: reads the words, reads the files that they ask for, runs the script, and writes the
/// transcript to the output. The status is that of the transcript, or tells which fault or want of memory ended the run before.
pub fn run_main<F: Files, O: Sink>(
    alloc: Global,
    words: &[String],
    files: &mut F,
    out: &mut O,
) -> Status
    // The program writes exactly the transcript of its command line, and ends with its status.
    ensures exact { TellsAll (texts_of words.now) (F.content files.old) → OnEnd result (WritesAll (texts_of words.now) (F.content files.old) result (O.written out.old) (O.written out.new)) }
    ensures complete { TellsAll (texts_of words.now) (F.content files.old) → NoFaults (F.faults files.old) (F.faults files.new) (O.faults out.old) (O.faults out.new)
        → Completes (texts_of words.now) (F.content files.old) result (O.written out.old) (O.written out.new) }

    // Where a fault or want of memory stops it earlier, it has written a prefix of the transcript, or nothing.
    ensures read_fault { OnReadFault result (O.written out.new ≡ O.written out.old) }
    ensures write_fault { TellsAll (texts_of words.now) (F.content files.old) → OnWriteFault result (WritesPrefix (texts_of words.now) (F.content files.old) (O.written out.old) (O.written out.new)) }
    ensures no_memory { TellsAll (texts_of words.now) (F.content files.old) → OnNoMemory result ((O.written out.new ≡ O.written out.old) ⊎ WritesPrefix (texts_of words.now) (F.content files.old) (O.written out.old) (O.written out.new)) }

    // A read fault comes only where one was counted, and always where one was counted. The files that are asked for are read in
    // their order, the script's first: those before the one that failed are there, and none that tells its content is too long.
    ensures read_cause { OnReadFault result (IsReadFault (texts_of words.now) (F.absent files.old) (F.content files.old) (F.faults files.old) (F.faults files.new) (F.failed files.new)) }
    ensures read_always { UnlessReadFault result (¬ (F.faults files.old < F.faults files.new)) }
    ensures failed_stays { UnlessReadFault result (F.failed files.new ≡ F.failed files.old) }

    // A run or the refusal of a script comes only where each file that was asked for is there, and none that tells its content
    // passes its limit. Where a write failed, that is so, or what was being written tells the file that is too long.
    ensures readable { IfRead result (AreReadable (texts_of words.now) (F.absent files.old) (F.content files.old)) (IsTooLong (texts_of words.now) (F.absent files.old) (F.content files.old) (F.taken files.old) (F.taken files.new)) }

    // A write fault comes only where one was counted, and always where one was counted.
    ensures write_cause { OnWriteFault result (Rose (O.faults out.old) (O.faults out.new)) }
    ensures write_always { UnlessWriteFault result (¬ (O.faults out.old < O.faults out.new)) }

    // Words that are no command line are refused without a look at the files, whether they tell anything or not.
    ensures usage_only { OnUsage result (command_of (texts_of words.now) ≡ None) }
    ensures usage_reads_nothing { command_of (texts_of words.now) ≡ None → files.new ≡ files.old }

    // A file that was asked for is too long, by its content where that is told, and else by the bytes that were taken. Those
    // before it are there, and none that tells its content is too long.
    ensures too_long_cause { OnTooLongStatus result (IsTooLong (texts_of words.now) (F.absent files.old) (F.content files.old) (F.taken files.old) (F.taken files.new)) }

    // What the files tell stays.
    ensures contents_stay { (name : List ℕ) → F.content files.new name ≡ F.content files.old name }
{
    match command_transcript(alloc, words, files) {
        Ok(transcript) => deliver(alloc, out, &transcript),
        Err(Fault::Read) => Status::ReadFault,
        Err(Fault::NoMemory) => Status::NoMemory,
    }
}
