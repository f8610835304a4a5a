use super::{owned, told};
use embed_base::{MemFiles, MemSink, SureFiles, SureSink};
use embed_cmd::run_main;
use std::alloc::Global;
use std::test::Fail;

// What a script gives with a word for its budget.
fn budgeted(alloc: Global, steps: &str, script: &str) -> Result<String, Fail> {
    let words = owned(alloc, ["run", "s.js", steps].as_slice())?;
    let mut pairs = Vec::new(alloc);
    let name = String::from_str(alloc, "s.js")?;
    pairs.push((name, Vec::from_slice(alloc, script.as_bytes())?))?;
    let mut files = SureFiles::new(pairs);
    let mut out = SureSink::new(alloc);
    let status = run_main(alloc, words.as_slice(), &mut files, &mut out);
    told(alloc, status, out.bytes())
}

#[test]
fn statements_and_prints_take_charges(rt: HostRuntime) -> Result<(), Fail> {
    let two = "print(1); print(2);";
    let refusal = "print(\"a\" - 1);";
    let cases = [
        ("--steps=4", two, "Done|1\n2\n"),
        ("--steps=3", two, "Budget|1\nbudget: needs 1, left 0\n"),
        ("--steps=2", two, "Budget|1\nbudget: needs 1, left 0\n"),
        ("--steps=1", two, "Budget|budget: needs 1, left 0\n"),
        ("--steps=0", two, "Budget|budget: needs 1, left 0\n"),
        ("--steps=0", "", "Done|"),
        ("--steps=0", "print(1)", "ScriptRefused|script: not yet\n"),
        ("--steps=1000000000000", two, "Done|1\n2\n"),
        ("--steps=1", "let a = 1;", "Done|"),
        (
            "--steps=1",
            "let a = 1; let b = a;",
            "Budget|budget: needs 1, left 0\n",
        ),
        ("--steps=1", refusal, "Outside|outside: text-number at 10\n"),
        ("--steps=0", refusal, "Budget|budget: needs 1, left 0\n"),
    ];
    for (steps, script, expected) in cases {
        let got = budgeted(rt.alloc(), steps, script)?;
        assert_eq!(rt; got.as_str(), expected, "at {steps} {script}");
    }
    Ok(())
}

// What `print(1);` of this many bytes gives with modules at these paths, of which `m` alone is there.
fn with_modules(alloc: Global, size: usize, paths: &[&str]) -> Result<String, Fail> {
    let mut words = owned(alloc, ["run", "s.js"].as_slice())?;
    for path in paths {
        words.push(format!(in alloc; "--module={path}=f{path}")?)?;
    }
    let mut script = Vec::from_slice(alloc, b"print(1);")?;
    for _ in script.len()..size {
        script.push(b' ')?;
    }
    let mut pairs = Vec::new(alloc);
    pairs.push((String::from_str(alloc, "s.js")?, script))?;
    pairs.push((String::from_str(alloc, "fm")?, Vec::new(alloc)))?;
    let mut files = MemFiles::new(pairs, Vec::new(alloc));
    let mut out = MemSink::new(alloc, 7, Vec::new(alloc));
    let status = run_main(alloc, words.as_slice(), &mut files, &mut out);
    told(alloc, status, out.bytes())
}

#[test]
fn the_first_file_that_is_not_read_decides(rt: HostRuntime) -> Result<(), Fail> {
    let none = with_modules(rt.alloc(), 0, [].as_slice())?;
    assert_eq!(rt; none.as_str(), "Done|1\n");
    let there = with_modules(rt.alloc(), 0, ["m"].as_slice())?;
    assert_eq!(rt; there.as_str(), "Done|1\n");
    let absent = with_modules(rt.alloc(), 0, ["m", "n"].as_slice())?;
    assert_eq!(rt; absent.as_str(), "ReadFault|");
    let long = with_modules(rt.alloc(), 1_048_577, ["n"].as_slice())?;
    assert_eq!(rt; long.as_str(), "TooLong|too long: s.js\n");
    Ok(())
}

// What `print(1);` gives with modules at these paths, of which `m` and `k` are there and `l` is too long, where the read of this
// number fails, counted from 0.
fn with_fault(alloc: Global, paths: &[&str], fails: u64) -> Result<String, Fail> {
    let mut words = owned(alloc, ["run", "s.js"].as_slice())?;
    for path in paths {
        words.push(format!(in alloc; "--module={path}=f{path}")?)?;
    }
    let mut long = Vec::new(alloc);
    long.resize(16_777_217, 0)?;
    let mut pairs = Vec::new(alloc);
    pairs.push((
        String::from_str(alloc, "s.js")?,
        Vec::from_slice(alloc, b"print(1);")?,
    ))?;
    pairs.push((String::from_str(alloc, "fm")?, Vec::new(alloc)))?;
    pairs.push((String::from_str(alloc, "fk")?, Vec::new(alloc)))?;
    pairs.push((String::from_str(alloc, "fl")?, long))?;
    let mut fail_at = Vec::new(alloc);
    fail_at.push(fails)?;
    let mut files = MemFiles::new(pairs, fail_at);
    let mut out = MemSink::new(alloc, 7, Vec::new(alloc));
    let status = run_main(alloc, words.as_slice(), &mut files, &mut out);
    told(alloc, status, out.bytes())
}

#[test]
fn each_file_is_read_once_in_the_order_of_the_words(rt: HostRuntime) -> Result<(), Fail> {
    let first_long = with_fault(rt.alloc(), ["m", "l", "n"].as_slice(), 9)?;
    assert_eq!(rt; first_long.as_str(), "TooLong|too long: fl\n");
    let first_absent = with_fault(rt.alloc(), ["m", "n", "l"].as_slice(), 9)?;
    assert_eq!(rt; first_absent.as_str(), "ReadFault|");
    let last_fails = with_fault(rt.alloc(), ["m", "k"].as_slice(), 2)?;
    assert_eq!(rt; last_fails.as_str(), "ReadFault|");
    let none_fails = with_fault(rt.alloc(), ["m", "k"].as_slice(), 3)?;
    assert_eq!(rt; none_fails.as_str(), "Done|1\n");
    Ok(())
}
