use host_reading::{Read, read_script, refusal_line};
use std::alloc::Global;
use std::process::Abort;
use std::test::Fail;

// The line that refuses bytes, or how long the script is that they are.
fn told(rt: &impl Abort, alloc: Global, bytes: &[u8]) -> Result<String, Fail> {
    assert!(rt; bytes.len() < 10000);
    match read_script(alloc, bytes)? {
        Read::Script(script) => Ok(format!(in alloc; "a script of {}", script.len())?),
        Read::Refused(refusal) => Ok(refusal_line(alloc, &refusal)?),
    }
}

static EACH_REFUSAL_HAS_ITS_LINE: [(&[u8], &str); 36] = [
    (b"", "a script of 0"),
    (b"let a = 1;", "a script of 10"),
    (b"print('a', 6 * 7);", "a script of 18"),
    (b"'\xc3\xa9';", "a script of 5"),
    (b"\xff", "script: not UTF-8 at 0\n"),
    (b"let a;\xff", "script: not UTF-8 at 6\n"),
    (b"a;\xc3", "script: not UTF-8 at 2\n"),
    (b"'\xe2\x82'", "script: not UTF-8 at 1\n"),
    (b"\xc3\xa9;\xf0\x9f\x98", "script: not UTF-8 at 3\n"),
    (b"\xc0\x80", "script: not UTF-8 at 0\n"),
    (b"a\xed\xa0\x80", "script: not UTF-8 at 1\n"),
    (b"#\xff", "script: not UTF-8 at 1\n"),
    (b"#", "script: bad token at 0\n"),
    (b"let a = 'x", "script: bad token at 8\n"),
    (b"a /* b", "script: bad token at 2\n"),
    (b"\xc3\xa9 @", "script: bad token at 3\n"),
    (b"/* \xe2\x80\xa8 */", "script: bad token at 3\n"),
    (b") ?", "script: bad token at 2\n"),
    (b"1.5", "script: number outside at 0\n"),
    (b"let a = 01;", "script: number outside at 8\n"),
    (b"9007199254740992;", "script: number outside at 0\n"),
    (b") 1e3", "script: number outside at 2\n"),
    (b"let x = 1", "script: unexpected at 9\n"),
    (b"let a b;", "script: unexpected at 6\n"),
    (b"f(a", "script: unexpected at 3\n"),
    (b"return;", "script: unexpected at 0\n"),
    (b"'\xc3\xa9' 1;", "script: unexpected at 5\n"),
    (b"let a; let a", "script: unexpected at 12\n"),
    (b"let a; let a;", "script: a declared twice at 11\n"),
    (b"const a=1,b=2,a=3;", "script: a declared twice at 14\n"),
    (
        b"function f(x) { let x; }",
        "script: x declared twice at 20\n",
    ),
    (
        b"let \xc3\xa9;let \xc3\xa9;",
        "script: é declared twice at 11\n",
    ),
    (
        b"{let b;let b;}let a;let a;",
        "script: b declared twice at 11\n",
    ),
    (b"let $_1;\nlet $_1;", "script: $_1 declared twice at 13\n"),
    (b"let a;{let a;}", "a script of 14"),
    (b"let a;let a;1.5", "script: number outside at 12\n"),
];

#[test]
fn each_refusal_has_its_line(rt: HostRuntime) -> Result<(), Fail> {
    for (bytes, wanted) in &EACH_REFUSAL_HAS_ITS_LINE {
        let line = told(&rt, rt.alloc(), bytes)?;
        assert_eq!(rt; line.as_str(), *wanted);
    }
    Ok(())
}

static THE_257TH_OPEN_CONSTRUCT_IS_TOO_DEEP: [(u8, u32, &str); 6] = [
    (b'(', 1, "script: unexpected at 1\n"),
    (b'(', 256, "script: unexpected at 256\n"),
    (b'(', 257, "script: too deep at 256\n"),
    (b'(', 300, "script: too deep at 256\n"),
    (b'[', 256, "script: unexpected at 256\n"),
    (b'[', 257, "script: too deep at 256\n"),
];

#[test]
fn the_257th_open_construct_is_too_deep(rt: HostRuntime) -> Result<(), Fail> {
    for (byte, count, wanted) in &THE_257TH_OPEN_CONSTRUCT_IS_TOO_DEEP {
        let mut bytes = Vec::new(rt.alloc());
        for _ in 0..*count {
            bytes.push(*byte)?;
        }
        let line = told(&rt, rt.alloc(), bytes.as_slice())?;
        assert_eq!(rt; line.as_str(), *wanted);
    }
    Ok(())
}
