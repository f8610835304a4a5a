use embed_base::limits::MOST_MODULES;
use embed_cmd::read_words;
use std::alloc::Global;
use std::process::Abort;
use std::test::Fail;

// The words that stand between bars.
fn split(alloc: Global, line: &str) -> Result<Vec<String>, Fail> {
    let mut words = Vec::new(alloc);
    for word in line.split('|') {
        words.push(String::from_str(alloc, word)?)?;
    }
    Ok(words)
}

// What words ask for, as one text: the script, the budget, and each module's name and path.
fn told(alloc: Global, words: &[String]) -> Result<String, Fail> {
    let Some(asked) = read_words(alloc, words)? else {
        return Ok(String::from_str(alloc, "usage")?);
    };
    let mut text = format!(in alloc; "{} {}", asked.script.as_str(), asked.budget)?;
    for module in asked.modules.as_slice() {
        let shown = format!(in alloc; " {}:{}", module.0.as_str(), module.1.as_str())?;
        text.push_str(shown.as_str())?;
    }
    Ok(text)
}

// Each line asks for what is told beside it.
fn all_read(rt: &impl Abort, alloc: Global, cases: &[(&str, &str)]) -> Result<(), Fail> {
    for (line, expected) in cases {
        let words = split(alloc, line)?;
        let got = told(alloc, words.as_slice())?;
        assert_eq!(rt; got.as_str(), *expected, "at {line}");
    }
    Ok(())
}

// Each line is no command line.
fn all_refused(rt: &impl Abort, alloc: Global, lines: &[&str]) -> Result<(), Fail> {
    for line in lines {
        let words = split(alloc, line)?;
        let got = told(alloc, words.as_slice())?;
        assert_eq!(rt; got.as_str(), "usage", "at {line}");
    }
    Ok(())
}

#[test]
fn budgets_are_read(rt: HostRuntime) -> Result<(), Fail> {
    let cases = [
        ("run|s.js|--steps|5", "s.js 5"),
        ("--steps|5|run|s.js", "s.js 5"),
        ("run|--steps|5|s.js", "s.js 5"),
        ("run|s.js|--steps=5", "s.js 5"),
        ("--steps=0|run|s.js", "s.js 0"),
        ("run|s.js|--steps|1000000000000", "s.js 1000000000000"),
        ("run|s.js|--steps=0000000000007", "s.js 7"),
    ];
    all_read(&rt, rt.alloc(), cases.as_slice())
}

#[test]
fn faulty_budgets_are_refused(rt: HostRuntime) -> Result<(), Fail> {
    let lines = [
        "run|s.js|--steps|1000000000001",
        "run|s.js|--steps=9999999999999",
        "run|s.js|--steps=00000000000007",
        "run|s.js|--steps=",
        "run|s.js|--steps|",
        "run|s.js|--steps=+5",
        "run|s.js|--steps=-1",
        "run|s.js|--steps|-1",
        "run|s.js|--steps| 5",
        "run|s.js|--steps=5x",
        "run|s.js|--steps=5=6",
        "run|s.js|--steps",
        "run|--steps",
        "run|s.js|--steps|5|--steps|6",
        "run|s.js|--steps=5|--steps=5",
        "run|--steps=5",
        "--steps5|run|s.js",
    ];
    all_refused(&rt, rt.alloc(), lines.as_slice())
}

#[test]
fn modules_are_read(rt: HostRuntime) -> Result<(), Fail> {
    let cases = [
        ("run|s.js|--module|a=b", "s.js 10000000 a:b"),
        ("run|s.js|--module=a=b", "s.js 10000000 a:b"),
        (
            "--module|a=b|run|--module=c=d|s.js|--steps|9",
            "s.js 9 a:b c:d",
        ),
        ("run|s.js|--module=a=b=c", "s.js 10000000 a:b=c"),
        ("run|s.js|--module=-x=p", "s.js 10000000 -x:p"),
        (
            "run|s.js|--module=a=b|--module=A=b",
            "s.js 10000000 a:b A:b",
        ),
    ];
    all_read(&rt, rt.alloc(), cases.as_slice())
}

#[test]
fn faulty_modules_are_refused(rt: HostRuntime) -> Result<(), Fail> {
    let lines = [
        "run|s.js|--module=a=",
        "run|s.js|--module==b",
        "run|s.js|--module=a",
        "run|s.js|--module=",
        "run|s.js|--module|",
        "run|s.js|--module",
        "run|s.js|--module|-x=p",
        "run|s.js|--module|--steps|5",
        "run|s.js|--module=a=b|--module=a=c",
    ];
    all_refused(&rt, rt.alloc(), lines.as_slice())
}

#[test]
fn paths_are_read(rt: HostRuntime) -> Result<(), Fail> {
    let cases = [
        ("run|s.js", "s.js 10000000"),
        ("run|run", "run 10000000"),
        ("run|s=t.js", "s=t.js 10000000"),
    ];
    all_read(&rt, rt.alloc(), cases.as_slice())
}

#[test]
fn faulty_words_are_refused(rt: HostRuntime) -> Result<(), Fail> {
    let lines = [
        "run|s.js|--help",
        "run|s.js|--version",
        "run|s.js|-h",
        "run|s.js|-",
        "run|s.js|--",
        "run|-s.js",
        "run|",
        "run",
        "",
        "s.js",
        "s.js|run",
        "run|s.js|t.js",
        "Run|s.js",
        "--step=5|run|s.js",
        "run|s.js|--Module=a=b",
    ];
    all_refused(&rt, rt.alloc(), lines.as_slice())
}

#[test]
fn no_words_are_refused(rt: HostRuntime) -> Result<(), Fail> {
    let none = Vec::new(rt.alloc());
    let got = told(rt.alloc(), none.as_slice())?;
    assert_eq!(rt; got.as_str(), "usage");
    Ok(())
}

#[test]
fn modules_are_64_at_most(rt: HostRuntime) -> Result<(), Fail> {
    let mut words = split(rt.alloc(), "run|s.js")?;
    for number in 0..MOST_MODULES {
        words.push(format!(in rt.alloc(); "--module=m{number}=p")?)?;
    }
    assert!(rt; read_words(rt.alloc(), words.as_slice())?.is_some());
    words.push(String::from_str(rt.alloc(), "--module=n=p")?)?;
    assert!(rt; read_words(rt.alloc(), words.as_slice())?.is_none());
    Ok(())
}
