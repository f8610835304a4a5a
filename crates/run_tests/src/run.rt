ghost use Rattle.std.specs.Prelude.{◌≡◌, ℕ, List, Option, Some, None, []};
ghost use Rattle.embed_base.specs.Counts.{last_count};

use embed_base::{MemFiles, MemSink, Sink, SinkError, Status, SureFiles, SureSink};
use embed_cmd::run_main;
use std::alloc::Global;
use std::str;
use std::test::Fail;

mod charges;
mod modules;

// The words of a command line.
fn owned(alloc: Global, words: &[&str]) -> Result<Vec<String>, Fail> {
    let mut all = Vec::new(alloc);
    for word in words {
        all.push(String::from_str(alloc, word)?)?;
    }
    Ok(all)
}

// The one file `s.js`.
fn one_file(alloc: Global, bytes: &[u8]) -> Result<Vec<(String, Vec<u8>)>, Fail> {
    let mut files = Vec::new(alloc);
    let name = String::from_str(alloc, "s.js")?;
    files.push((name, Vec::from_slice(alloc, bytes)?))?;
    Ok(files)
}

// A status and the bytes written, as one text.
fn told(alloc: Global, status: Status, bytes: &[u8]) -> Result<String, Fail> {
    let text = str::from_utf8(bytes).map_err(|_| Fail::from("not UTF-8"))?;
    Ok(format!(in alloc; "{status:?}|{text}")?)
}

// What a command line gives over the one file `s.js`.
fn command(alloc: Global, words: &[&str], bytes: &[u8]) -> Result<String, Fail> {
    let words = owned(alloc, words)?;
    let mut files = SureFiles::new(one_file(alloc, bytes)?);
    let mut out = SureSink::new(alloc);
    let status = run_main(alloc, words.as_slice(), &mut files, &mut out);
    told(alloc, status, out.bytes())
}

// What `run s.js` gives for a script.
fn script(alloc: Global, bytes: &[u8]) -> Result<String, Fail> {
    command(alloc, ["run", "s.js"].as_slice(), bytes)
}

#[test]
fn scripts_give_their_transcripts(rt: HostRuntime) -> Result<(), Fail> {
    let cases = [
        ("", "Done|"),
        ("let a = 6; print(\"a\", a);", "Done|a 6\n"),
        ("let a = 6; print(\"a\", a * 7);", "Done|a 42\n"),
        ("print();", "Done|\n"),
        ("print(2 - 3 * 4 - (5 - 6));", "Done|-9\n"),
        ("print(1, \"\", \" \");print(\"x\");", "Done|1   \nx\n"),
        ("print(((7)));", "Done|7\n"),
        (
            "print(9007199254740991 + 1);",
            "Outside|outside: number at 23\n",
        ),
        ("print(\"a\" - 1);", "Outside|outside: text-number at 10\n"),
        ("let x = 1", "ScriptRefused|script: not yet\n"),
        (
            "print(1);\nprint(2, \"a\" * 1 + (0 - \"b\"));\nprint(3);",
            "Outside|1\noutside: text-number at 23\n",
        ),
        (
            "print(1 - (2 - \"a\") * \"b\");",
            "Outside|outside: text-number at 13\n",
        ),
    ];
    for (text, expected) in cases {
        let got = script(rt.alloc(), text.as_bytes())?;
        assert_eq!(rt; got.as_str(), expected, "at {text}");
    }
    Ok(())
}

#[test]
fn operators_give_what_their_table_says(rt: HostRuntime) -> Result<(), Fail> {
    let cases = [
        ("print(1 + 2);", "Done|3\n"),
        ("print(1 + \"b\");", "Done|1b\n"),
        ("print(\"a\" + 2);", "Done|a2\n"),
        ("print(\"a\" + \"b\");", "Done|ab\n"),
        ("print((0 - 1) + \"b\");", "Done|-1b\n"),
        ("print(1 - 2);", "Done|-1\n"),
        ("print(1 - \"b\");", "Outside|outside: text-number at 8\n"),
        (
            "print(\"a\" - \"b\");",
            "Outside|outside: text-number at 10\n",
        ),
        ("print(3 * 2);", "Done|6\n"),
        ("print(1 * \"b\");", "Outside|outside: text-number at 8\n"),
        ("print(\"a\" * 2);", "Outside|outside: text-number at 10\n"),
        (
            "print(\"a\" * \"b\");",
            "Outside|outside: text-number at 10\n",
        ),
        ("print(0 * (0 - 1));", "Done|0\n"),
        ("print(9007199254740991 + 0);", "Done|9007199254740991\n"),
        ("print(0 - 9007199254740991);", "Done|-9007199254740991\n"),
        (
            "print(0 - 9007199254740991 - 1);",
            "Outside|outside: number at 27\n",
        ),
        (
            "print(9007199254740991 * 9007199254740991);",
            "Outside|outside: number at 23\n",
        ),
        (
            "print((0 - 9007199254740991) * 9007199254740991);",
            "Outside|outside: number at 29\n",
        ),
        ("print(94906265 * 94906265);", "Done|9007199136250225\n"),
    ];
    for (text, expected) in cases {
        let got = script(rt.alloc(), text.as_bytes())?;
        assert_eq!(rt; got.as_str(), expected, "at {text}");
    }
    Ok(())
}

#[test]
fn what_is_no_script_is_refused(rt: HostRuntime) -> Result<(), Fail> {
    let cases: [&[u8]; 24] = [
        b"let a = 1; let a = 2;",
        b"print(a);",
        b"let a = a;",
        b"print(a); let a = 1;",
        b"let print = 1;",
        b"let let = 1;",
        b"let while = 1;",
        b"let 1a = 1;",
        b"let a = 01;",
        b"let a = 9007199254740992;",
        b"let a = -1;",
        b"let a 1;",
        b"let = 1;",
        b"print(1)",
        b"print(1;",
        b"print 1;",
        b"print(1,);",
        b"print(,1);",
        b"print(());",
        b"print(1 2);",
        b"print(\"a);",
        b"print('a');",
        b"print(1)\t;",
        b"print(\"\xff\");",
    ];
    for bytes in cases {
        let got = script(rt.alloc(), bytes)?;
        assert_eq!(rt; got.as_str(), "ScriptRefused|script: not yet\n");
    }
    Ok(())
}

#[test]
fn words_are_run_and_a_path(rt: HostRuntime) -> Result<(), Fail> {
    let usage = "Usage|usage: jspirun run [--steps N] [--module NAME=PATH]... SCRIPT\n";
    let cases: [&[&str]; 8] = [
        &[],
        &["run"],
        &["run", ""],
        &["run", "-s.js"],
        &["run", "-"],
        &["walk", "s.js"],
        &["s.js", "run"],
        &["run", "s.js", "s.js"],
    ];
    for words in cases {
        let got = command(rt.alloc(), words, b"print(1);")?;
        assert_eq!(rt; got.as_str(), usage);
    }
    let got = command(rt.alloc(), ["run", "s.js"].as_slice(), b"print(1);")?;
    assert_eq!(rt; got.as_str(), "Done|1\n");
    let got = command(rt.alloc(), ["run", "t.js"].as_slice(), b"print(1);")?;
    assert_eq!(rt; got.as_str(), "Done|");
    Ok(())
}

// So many copies of a text, one after the other.
fn repeated(alloc: Global, text: &str, count: usize) -> Result<String, Fail> {
    let mut all = String::new(alloc);
    for _ in 0..count {
        all.push_str(text)?;
    }
    Ok(all)
}

#[test]
fn limits_hold_to_the_last_byte_and_parenthesis(rt: HostRuntime) -> Result<(), Fail> {
    let alloc = rt.alloc();
    let most = repeated(alloc, " ", 1_048_576)?;
    assert_eq!(rt; script(alloc, most.as_bytes())?.as_str(), "Done|");
    let more = repeated(alloc, " ", 1_048_577)?;
    assert_eq!(rt;
        script(alloc, more.as_bytes())?.as_str(),
        "TooLong|too long: s.js\n"
    );
    for (depth, expected) in [(255, "Done|1\n"), (256, "ScriptRefused|script: not yet\n")] {
        let opened = repeated(alloc, "(", depth)?;
        let closed = repeated(alloc, ")", depth)?;
        let text = format!(in alloc; "print({opened}1{closed});")?;
        assert_eq!(rt;
            script(alloc, text.as_bytes())?.as_str(),
            expected,
            "at {depth}"
        );
    }
    for (depth, expected) in [(256, "Done|1\n"), (257, "ScriptRefused|script: not yet\n")] {
        let opened = repeated(alloc, "(", depth)?;
        let closed = repeated(alloc, ")", depth)?;
        let text = format!(in alloc; "let a = {opened}1{closed}; print(a);")?;
        assert_eq!(rt;
            script(alloc, text.as_bytes())?.as_str(),
            expected,
            "at {depth}"
        );
    }
    Ok(())
}

#[test]
fn long_chains_and_long_texts(rt: HostRuntime) -> Result<(), Fail> {
    let alloc = rt.alloc();
    let ones = repeated(alloc, "1 + ", 9_999)?;
    let text = format!(in alloc; "print({ones}1);")?;
    assert_eq!(rt; script(alloc, text.as_bytes())?.as_str(), "Done|10000\n");
    let mut text = String::from_str(alloc, "let a0 = \"x\";")?;
    for at in 0..21u32 {
        let next = at + 1;
        let line = format!(in alloc; " let a{next} = a{at} + a{at};")?;
        text.push_str(line.as_str())?;
    }
    let got = script(alloc, text.as_bytes())?;
    assert_eq!(rt; got.as_str(), "Outside|outside: text-size at 419\n");
    Ok(())
}

#[test]
fn each_fault_ends_the_run_where_it_comes(rt: HostRuntime) -> Result<(), Fail> {
    let alloc = rt.alloc();
    let whole = b"1\n2\n";
    let words = owned(alloc, ["run", "s.js"].as_slice())?;
    for fault in 0..4u64 {
        let mut files = MemFiles::new(one_file(alloc, b"print(1); print(2);")?, Vec::new(alloc));
        let mut out = MemSink::new(alloc, 1, Vec::from_slice(alloc, [fault].as_slice())?);
        let status = run_main(alloc, words.as_slice(), &mut files, &mut out);
        assert_eq!(rt; status, Status::WriteFault);
        let (written, _) = whole.as_slice().split_at(fault as usize);
        assert_eq!(rt; out.bytes(), written);
    }
    for most in [1usize, 2, 3, 4, 99] {
        let mut files = MemFiles::new(one_file(alloc, b"print(1); print(2);")?, Vec::new(alloc));
        assert!(rt; most >= 1);
        let mut out = MemSink::new(alloc, most, Vec::from_slice(alloc, [4].as_slice())?);
        let status = run_main(alloc, words.as_slice(), &mut files, &mut out);
        assert_eq!(rt; status, Status::Done);
        assert_eq!(rt; out.bytes(), whole.as_slice());
    }
    let mut files = MemFiles::new(
        one_file(alloc, b"print(1);")?,
        Vec::from_slice(alloc, [0].as_slice())?,
    );
    let mut out = MemSink::new(alloc, 1, Vec::new(alloc));
    let status = run_main(alloc, words.as_slice(), &mut files, &mut out);
    assert_eq!(rt; told(alloc, status, out.bytes())?.as_str(), "ReadFault|");
    let other = owned(alloc, ["run", "t.js"].as_slice())?;
    let status = run_main(alloc, other.as_slice(), &mut files, &mut out);
    assert_eq!(rt; told(alloc, status, out.bytes())?.as_str(), "ReadFault|");
    let status = run_main(alloc, words.as_slice(), &mut files, &mut out);
    assert_eq!(rt; told(alloc, status, out.bytes())?.as_str(), "Done|1\n");
    Ok(())
}

// An output whose count of faults stands at its last value, and which takes nothing.
#[derive(Drop)]
struct WornSink;

impl Sink for WornSink {
    ghost written = { λ s. None };

    ghost faults = { λ s. last_count };

    fn write(&mut self, _alloc: Global, _piece: &[u8]) -> Result<usize, SinkError> {
        Err(SinkError::Failed)
    }
}

#[test]
fn a_count_at_its_last_value_stands_for_a_fault(rt: HostRuntime) -> Result<(), Fail> {
    let alloc = rt.alloc();
    let words = owned(alloc, ["run", "s.js"].as_slice())?;
    let mut files = SureFiles::new(one_file(alloc, b"print(1);")?);
    let mut out = WornSink;
    let status = run_main(alloc, words.as_slice(), &mut files, &mut out);
    assert_eq!(rt; status, Status::WriteFault);
    Ok(())
}
