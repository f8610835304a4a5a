ghost use Rattle.std.specs.Prelude.{◌≡◌, ℕ, List, ◌<◌, ◌≤◌, false, Some, None, OnOk, IfOk, IfSome, length};
ghost use Rattle.embed_base.specs.Counts.{Rose};
ghost use Rattle.embed_cmd.specs.Transcript.{is_longer, files_of, module_files, most_script_bytes};
ghost use Rattle.embed_cmd.specs.Headline.{AreReadableFiles, EndsAt, IsPast};
ghost use Rattle.embed_cmd.specs.AskedFiles.{OnFailed, UnlessFailed, IfTooLong, IsLongPath, AreFilesOf};

use crate::words::Asked;
use embed_base::limits::{MOST_MODULE_BYTES, MOST_SCRIPT_BYTES};
use embed_base::{FileError, Files, PlainString};
use embed_script::ModuleFile;
use std::alloc::{AllocError, AllocFailed, Global};

/// Why the files of a command line weren't all read.
#[derive(Debug, Drop)]
pub(crate) enum Unread {
    /// The path of a file that passes its limit.
    TooLong(PlainString),
    Failed,
    NoMemory,
}

impl From<AllocError> for Unread {
    ghost use Rattle.embed_cmd.specs.declared.asked_files.Unread.TheVariants.{NoMemory};
    ghost use Rattle.std.specs.Prelude.{◌≡◌};

    ghost from_gives = { λ _ e. e ≡ NoMemory };

    fn from(_: AllocError) -> Self {
        Unread::NoMemory
    }
}

impl<T: Drop> From<AllocFailed<T>> for Unread {
    ghost use Rattle.embed_cmd.specs.declared.asked_files.Unread.TheVariants.{NoMemory};
    ghost use Rattle.std.specs.Prelude.{◌≡◌};

    ghost from_gives = { λ _ e. e ≡ NoMemory };

    fn from(_: AllocFailed<T>) -> Self {
        Unread::NoMemory
    }
}

/// The bytes of the files that a command line asks for.
#[derive(Debug, Drop)]
pub(crate) struct AskedBytes {
    pub(crate) script: Vec<u8>,
    pub(crate) modules: Vec<ModuleFile>,
}

/// The bytes of a file.
fn read_file<F: Files>(
    alloc: Global,
    files: &mut F,
    path: &str,
    limit: u64,
) -> Result<Vec<u8>, Unread>
    ensures whole { IfOk result (λ bytes. IfSome (F.content files.old path.now) (λ told. bytes.items ≡ told)) }
    ensures within { IfOk result (λ bytes. length bytes.items ≤ limit) }
    ensures not_longer { OnOk result (is_longer limit (F.content files.old path.now) ≡ false) }
    ensures there { OnOk result (F.absent files.old path.now ≡ false) }
    ensures too_long { IfTooLong result (λ long. (long ≡ path.now) × IsPast limit (F.content files.old path.now) (F.taken files.old) (F.taken files.new)) }

    ensures failed_rose { OnFailed result (Rose (F.faults files.old) (F.faults files.new)) }
    ensures rose_failed { UnlessFailed result (¬ (F.faults files.old < F.faults files.new)) }
    ensures failed_named { OnFailed result (F.failed files.new ≡ Some path.now) }
    ensures failed_stays { UnlessFailed result (F.failed files.new ≡ F.failed files.old) }

    ensures contents_stay { (name : List ℕ) → F.content files.new name ≡ F.content files.old name }
    ensures absent_stays { (name : List ℕ) → F.absent files.new name ≡ F.absent files.old name }
    ensures faults_stay { F.faults files.old ≤ F.faults files.new }
    ensures taken_stays { F.taken files.old ≤ F.taken files.new }
{
    let mut bytes = Vec::new(alloc);
    match files.read_whole(alloc, path, limit, &mut bytes) {
        Ok(()) => Ok(bytes),
        Err(FileError::TooLong) => Err(Unread::TooLong(PlainString::from_str(alloc, path)?)),
        Err(FileError::Failed) => Err(Unread::Failed),
        Err(FileError::NoMemory) => Err(Unread::NoMemory),
    }
}

/// The bytes of the modules' files, read in their order.
fn read_modules<F: Files>(
    alloc: Global,
    files: &mut F,
    modules: &[(PlainString, PlainString)],
) -> Result<Vec<ModuleFile>, Unread>
    ensures named { IfOk result (λ read. AreFilesOf (F.content files.old) modules.now read.items) }
    ensures readable { OnOk result (AreReadableFiles (F.absent files.old) (F.content files.old) (module_files modules.now)) }
    ensures too_long { IfTooLong result (λ path. IsLongPath (module_files modules.now) (F.absent files.old) (F.content files.old) (F.taken files.old) (F.taken files.new) path) }

    ensures failed_rose { OnFailed result (Rose (F.faults files.old) (F.faults files.new)) }
    ensures rose_failed { UnlessFailed result (¬ (F.faults files.old < F.faults files.new)) }
    ensures failed_named { OnFailed result (EndsAt (λ file. F.failed files.new ≡ Some file.path) (F.absent files.old) (F.content files.old) (module_files modules.now)) }
    ensures failed_stays { UnlessFailed result (F.failed files.new ≡ F.failed files.old) }

    ensures contents_stay { (name : List ℕ) → F.content files.new name ≡ F.content files.old name }
    ensures faults_stay { F.faults files.old ≤ F.faults files.new }
    ensures taken_stays { F.taken files.old ≤ F.taken files.new }
{
    let mut read = Vec::new(alloc);
    for module in modules {
        match read_file(alloc, files, module.1.as_str(), MOST_MODULE_BYTES) {
            Ok(bytes) => {
                let name = PlainString::from_str(alloc, module.0.as_str())?;
                read.push(ModuleFile { name, bytes })?;
            }
            Err(unread) => return Err(unread),
        }
    }
    Ok(read)
}

/// The bytes of all files that are asked for: the script's is read first, and then the modules' in their order.
pub(crate) fn read_asked<F: Files>(
    alloc: Global,
    files: &mut F,
    asked: &Asked,
) -> Result<AskedBytes, Unread>
    ensures script { IfOk result (λ read. IfSome (F.content files.old asked.now.script) (λ told. read.script.items ≡ told)) }
    ensures within { IfOk result (λ read. length read.script.items ≤ most_script_bytes) }
    ensures modules { IfOk result (λ read. AreFilesOf (F.content files.old) asked.now.modules read.modules.items) }
    ensures readable { OnOk result (AreReadableFiles (F.absent files.old) (F.content files.old) (files_of asked.now)) }
    ensures too_long { IfTooLong result (λ path. IsLongPath (files_of asked.now) (F.absent files.old) (F.content files.old) (F.taken files.old) (F.taken files.new) path) }

    ensures failed_rose { OnFailed result (Rose (F.faults files.old) (F.faults files.new)) }
    ensures rose_failed { UnlessFailed result (¬ (F.faults files.old < F.faults files.new)) }
    ensures failed_named { OnFailed result (EndsAt (λ file. F.failed files.new ≡ Some file.path) (F.absent files.old) (F.content files.old) (files_of asked.now)) }
    ensures failed_stays { UnlessFailed result (F.failed files.new ≡ F.failed files.old) }

    ensures contents_stay { (name : List ℕ) → F.content files.new name ≡ F.content files.old name }
{
    match read_file(alloc, files, asked.script.as_str(), MOST_SCRIPT_BYTES) {
        Ok(script) => match read_modules(alloc, files, asked.modules.as_slice()) {
            Ok(modules) => Ok(AskedBytes { script, modules }),
            Err(unread) => Err(unread),
        },
        Err(unread) => Err(unread),
    }
}
