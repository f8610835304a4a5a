use crate::refusals::told;
use std::alloc::Global;
use std::test::Fail;

// A text of repeated parts: the first, how often it stands, what stands in the middle, the last, how often, and the end.
struct Repeated {
    first: &'static str,
    times: u32,
    middle: &'static str,
    last: &'static str,
    again: u32,
    end: &'static str,
}

fn spelt(alloc: Global, parts: &Repeated) -> Result<String, Fail> {
    let mut text = String::new(alloc);
    for _ in 0..parts.times {
        text.push_str(parts.first)?;
    }
    text.push_str(parts.middle)?;
    for _ in 0..parts.again {
        text.push_str(parts.last)?;
    }
    text.push_str(parts.end)?;
    Ok(text)
}

static DEPTHS: [(Repeated, &str); 55] = [
    (
        Repeated {
            first: "(",
            times: 256,
            middle: "a",
            last: ")",
            again: 256,
            end: ";",
        },
        "",
    ),
    (
        Repeated {
            first: "(",
            times: 257,
            middle: "a",
            last: ")",
            again: 257,
            end: ";",
        },
        "too deep 256",
    ),
    (
        Repeated {
            first: "(",
            times: 256,
            middle: ")",
            last: "",
            again: 0,
            end: "",
        },
        "unexpected 256",
    ),
    (
        Repeated {
            first: "(",
            times: 257,
            middle: ")",
            last: "",
            again: 0,
            end: "",
        },
        "too deep 256",
    ),
    (
        Repeated {
            first: "(",
            times: 256,
            middle: "if(",
            last: "",
            again: 0,
            end: "",
        },
        "unexpected 256",
    ),
    (
        Repeated {
            first: "(",
            times: 256,
            middle: "{",
            last: "",
            again: 0,
            end: "",
        },
        "too deep 256",
    ),
    (
        Repeated {
            first: "[",
            times: 256,
            middle: "a",
            last: "]",
            again: 256,
            end: ";",
        },
        "",
    ),
    (
        Repeated {
            first: "[",
            times: 257,
            middle: "a",
            last: "]",
            again: 257,
            end: ";",
        },
        "too deep 256",
    ),
    (
        Repeated {
            first: "{",
            times: 256,
            middle: "",
            last: "}",
            again: 256,
            end: "",
        },
        "",
    ),
    (
        Repeated {
            first: "{",
            times: 257,
            middle: "",
            last: "}",
            again: 257,
            end: "",
        },
        "too deep 256",
    ),
    (
        Repeated {
            first: "!",
            times: 256,
            middle: "a",
            last: "",
            again: 0,
            end: ";",
        },
        "",
    ),
    (
        Repeated {
            first: "!",
            times: 257,
            middle: "a",
            last: "",
            again: 0,
            end: ";",
        },
        "too deep 256",
    ),
    (
        Repeated {
            first: "- ",
            times: 256,
            middle: "a",
            last: "",
            again: 0,
            end: ";",
        },
        "",
    ),
    (
        Repeated {
            first: "- ",
            times: 257,
            middle: "a",
            last: "",
            again: 0,
            end: ";",
        },
        "too deep 512",
    ),
    (
        Repeated {
            first: "typeof ",
            times: 256,
            middle: "a",
            last: "",
            again: 0,
            end: ";",
        },
        "",
    ),
    (
        Repeated {
            first: "typeof ",
            times: 257,
            middle: "a",
            last: "",
            again: 0,
            end: ";",
        },
        "too deep 1792",
    ),
    (
        Repeated {
            first: "if(a)",
            times: 255,
            middle: ";",
            last: "",
            again: 0,
            end: "",
        },
        "",
    ),
    (
        Repeated {
            first: "if(a)",
            times: 256,
            middle: ";",
            last: "",
            again: 0,
            end: "",
        },
        "too deep 1277",
    ),
    (
        Repeated {
            first: "while(a)",
            times: 255,
            middle: ";",
            last: "",
            again: 0,
            end: "",
        },
        "",
    ),
    (
        Repeated {
            first: "while(a)",
            times: 256,
            middle: ";",
            last: "",
            again: 0,
            end: "",
        },
        "too deep 2045",
    ),
    (
        Repeated {
            first: "new A(",
            times: 128,
            middle: "",
            last: ")",
            again: 128,
            end: ";",
        },
        "",
    ),
    (
        Repeated {
            first: "new A(",
            times: 129,
            middle: "",
            last: ")",
            again: 129,
            end: ";",
        },
        "too deep 768",
    ),
    (
        Repeated {
            first: "f(",
            times: 256,
            middle: "",
            last: ")",
            again: 256,
            end: ";",
        },
        "",
    ),
    (
        Repeated {
            first: "f(",
            times: 257,
            middle: "",
            last: ")",
            again: 257,
            end: ";",
        },
        "too deep 513",
    ),
    (
        Repeated {
            first: "a[",
            times: 256,
            middle: "b",
            last: "]",
            again: 256,
            end: ";",
        },
        "",
    ),
    (
        Repeated {
            first: "a[",
            times: 257,
            middle: "b",
            last: "]",
            again: 257,
            end: ";",
        },
        "too deep 513",
    ),
    (
        Repeated {
            first: "({a:",
            times: 128,
            middle: "1",
            last: "})",
            again: 128,
            end: ";",
        },
        "",
    ),
    (
        Repeated {
            first: "({a:",
            times: 129,
            middle: "1",
            last: "})",
            again: 129,
            end: ";",
        },
        "too deep 512",
    ),
    (
        Repeated {
            first: "try{",
            times: 256,
            middle: "",
            last: "}catch{}",
            again: 256,
            end: "",
        },
        "",
    ),
    (
        Repeated {
            first: "try{",
            times: 257,
            middle: "",
            last: "}catch{}",
            again: 257,
            end: "",
        },
        "too deep 1027",
    ),
    (
        Repeated {
            first: "(a);",
            times: 300,
            middle: "",
            last: "",
            again: 0,
            end: "",
        },
        "",
    ),
    (
        Repeated {
            first: "-a;",
            times: 300,
            middle: "",
            last: "",
            again: 0,
            end: "",
        },
        "",
    ),
    (
        Repeated {
            first: "if(a);",
            times: 300,
            middle: "",
            last: "",
            again: 0,
            end: "",
        },
        "",
    ),
    (
        Repeated {
            first: "{}",
            times: 300,
            middle: "",
            last: "",
            again: 0,
            end: "",
        },
        "",
    ),
    (
        Repeated {
            first: "a=-b;",
            times: 300,
            middle: "",
            last: "",
            again: 0,
            end: "",
        },
        "",
    ),
    (
        Repeated {
            first: "{",
            times: 256,
            middle: "if",
            last: "",
            again: 0,
            end: "",
        },
        "too deep 256",
    ),
    (
        Repeated {
            first: "{",
            times: 255,
            middle: "if(",
            last: "",
            again: 0,
            end: "",
        },
        "too deep 257",
    ),
    (
        Repeated {
            first: "{",
            times: 256,
            middle: "while",
            last: "",
            again: 0,
            end: "",
        },
        "too deep 256",
    ),
    (
        Repeated {
            first: "{",
            times: 256,
            middle: "a=-",
            last: "",
            again: 0,
            end: "",
        },
        "too deep 258",
    ),
    (
        Repeated {
            first: "(",
            times: 256,
            middle: "new",
            last: "",
            again: 0,
            end: "",
        },
        "too deep 256",
    ),
    (
        Repeated {
            first: "(",
            times: 255,
            middle: "new A(",
            last: "",
            again: 0,
            end: "",
        },
        "too deep 260",
    ),
    (
        Repeated {
            first: "(",
            times: 255,
            middle: "new",
            last: "",
            again: 0,
            end: "",
        },
        "unexpected 258",
    ),
    (
        Repeated {
            first: "",
            times: 0,
            middle: "function f(){",
            last: "{",
            again: 255,
            end: "",
        },
        "unexpected 268",
    ),
    (
        Repeated {
            first: "",
            times: 0,
            middle: "function f(){",
            last: "{",
            again: 256,
            end: "",
        },
        "too deep 268",
    ),
    (
        Repeated {
            first: "{",
            times: 255,
            middle: "try{}catch(",
            last: "",
            again: 0,
            end: "",
        },
        "unexpected 266",
    ),
    (
        Repeated {
            first: "{",
            times: 255,
            middle: "try{}catch(e){",
            last: "{",
            again: 1,
            end: "",
        },
        "too deep 269",
    ),
    (
        Repeated {
            first: "if(a);else ",
            times: 255,
            middle: ";",
            last: "",
            again: 0,
            end: "",
        },
        "",
    ),
    (
        Repeated {
            first: "if(a);else ",
            times: 256,
            middle: ";",
            last: "",
            again: 0,
            end: "",
        },
        "too deep 2807",
    ),
    (
        Repeated {
            first: "new A();",
            times: 300,
            middle: "",
            last: "",
            again: 0,
            end: "",
        },
        "",
    ),
    (
        Repeated {
            first: "while(a);",
            times: 300,
            middle: "",
            last: "",
            again: 0,
            end: "",
        },
        "",
    ),
    (
        Repeated {
            first: "a[b];",
            times: 300,
            middle: "",
            last: "",
            again: 0,
            end: "",
        },
        "",
    ),
    (
        Repeated {
            first: "({a:b});",
            times: 300,
            middle: "",
            last: "",
            again: 0,
            end: "",
        },
        "",
    ),
    (
        Repeated {
            first: "if(a);else;",
            times: 300,
            middle: "",
            last: "",
            again: 0,
            end: "",
        },
        "",
    ),
    (
        Repeated {
            first: "try{}catch(e){}",
            times: 300,
            middle: "",
            last: "",
            again: 0,
            end: "",
        },
        "",
    ),
    (
        Repeated {
            first: "a.b",
            times: 1,
            middle: "",
            last: ".c",
            again: 300,
            end: ";",
        },
        "",
    ),
];

#[test]
fn at_most_256_constructs_are_open(rt: HostRuntime) -> Result<(), Fail> {
    for (parts, wanted) in &DEPTHS {
        let text = spelt(rt.alloc(), parts)?;
        let found = told(&rt, rt.alloc(), text.as_str())?;
        assert_eq!(rt; found.as_str(), *wanted, "{text}");
    }
    Ok(())
}
