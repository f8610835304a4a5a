use super::{owned, told};
use embed_base::{SureFiles, SureSink};
use embed_cmd::run_main;
use std::alloc::Global;
use std::test::Fail;

// A module with one function, `add`, that adds its two parameters.
static ADD: [u8; 41] = [
    0x00, 0x61, 0x73, 0x6D, 0x01, 0x00, 0x00, 0x00, 0x01, 0x07, 0x01, 0x60, 0x02, 0x7F, 0x7F, 0x01,
    0x7F, 0x03, 0x02, 0x01, 0x00, 0x07, 0x07, 0x01, 0x03, 0x61, 0x64, 0x64, 0x00, 0x00, 0x0A, 0x09,
    0x01, 0x07, 0x00, 0x20, 0x00, 0x20, 0x01, 0x6A, 0x0B,
];

// Three functions: `add` of two parameters, `dec` of one with a local of its own, and a constant. The exports stand in
// another order than the functions, and the first one's name isn't ASCII: the constant is exported twice, as U+E9 and `seven`.
static THREE: [u8; 86] = [
    0x00, 0x61, 0x73, 0x6D, 0x01, 0x00, 0x00, 0x00, 0x01, 0x10, 0x03, 0x60, 0x02, 0x7F, 0x7F, 0x01,
    0x7F, 0x60, 0x01, 0x7F, 0x01, 0x7F, 0x60, 0x00, 0x01, 0x7F, 0x03, 0x04, 0x03, 0x00, 0x01, 0x02,
    0x07, 0x1A, 0x04, 0x02, 0xC3, 0xA9, 0x00, 0x02, 0x05, 0x73, 0x65, 0x76, 0x65, 0x6E, 0x00, 0x02,
    0x03, 0x61, 0x64, 0x64, 0x00, 0x00, 0x03, 0x64, 0x65, 0x63, 0x00, 0x01, 0x0A, 0x1E, 0x03, 0x07,
    0x00, 0x20, 0x00, 0x20, 0x01, 0x6A, 0x0B, 0x0F, 0x01, 0x01, 0x7F, 0x20, 0x00, 0x21, 0x01, 0x20,
    0x01, 0x22, 0x00, 0x41, 0x7F, 0x6A,
];

// The last bytes of the module above: the end of `dec`, and the constant.
static THREE_END: [u8; 6] = [0x0B, 0x04, 0x00, 0x41, 0x07, 0x0B];

// A module of 64 bit integers.
static WIDE: [u8; 36] = [
    0x00, 0x61, 0x73, 0x6D, 0x01, 0x00, 0x00, 0x00, 0x01, 0x06, 0x01, 0x60, 0x01, 0x7E, 0x01, 0x7E,
    0x03, 0x02, 0x01, 0x00, 0x07, 0x06, 0x01, 0x02, 0x69, 0x64, 0x00, 0x00, 0x0A, 0x06, 0x01, 0x04,
    0x00, 0x20, 0x00, 0x0B,
];

// A module with a type of a floating parameter, at its byte 13.
static FLOATING: [u8; 15] = [
    0x00, 0x61, 0x73, 0x6D, 0x01, 0x00, 0x00, 0x00, 0x01, 0x05, 0x01, 0x60, 0x01, 0x7C, 0x00,
];

// What a script gives with a word for its budget, over a module `m` with these bytes, as one text.
fn over(alloc: Global, steps: &str, bytes: &[u8], script: &str) -> Result<String, Fail> {
    let words = owned(
        alloc,
        ["run", "--module=m=m.wasm", "s.js", steps].as_slice(),
    )?;
    let mut pairs = Vec::new(alloc);
    let name = String::from_str(alloc, "s.js")?;
    pairs.push((name, Vec::from_slice(alloc, script.as_bytes())?))?;
    let name = String::from_str(alloc, "m.wasm")?;
    pairs.push((name, Vec::from_slice(alloc, bytes)?))?;
    let mut files = SureFiles::new(pairs);
    let mut out = SureSink::new(alloc);
    let status = run_main(alloc, words.as_slice(), &mut files, &mut out);
    told(alloc, status, out.bytes())
}

// The item that binds a name to an export of `m`.
fn item(alloc: Global, name: &str, export: &str) -> Result<String, Fail> {
    let text = format!(in alloc;
        "let {name} = new WebAssembly.Instance(new WebAssembly.Module(readbuffer(\"m\"))).exports.{export};"
    )?;
    Ok(text)
}

#[test]
fn a_function_of_a_module_is_called(rt: HostRuntime) -> Result<(), Fail> {
    let alloc = rt.alloc();
    let first = item(alloc, "add", "add")?;
    let script = format!(in alloc; "{first} print(add(2147483647, 1), add(7), add(7, 8, 9));")?;
    let got = over(alloc, "--steps=18", ADD.as_slice(), script.as_str())?;
    assert_eq!(rt; got.as_str(), "Done|-2147483648 7 15\n");
    for steps in 0..18u32 {
        let word = format!(in alloc; "--steps={steps}")?;
        let got = over(alloc, word.as_str(), ADD.as_slice(), script.as_str())?;
        assert_eq!(rt;
            got.as_str(),
            "Budget|budget: needs 1, left 0\n",
            "at {steps}"
        );
    }
    Ok(())
}

// The item takes four charges, the body three, and each call and statement one.
#[test]
fn lines_before_a_charge_stay(rt: HostRuntime) -> Result<(), Fail> {
    let alloc = rt.alloc();
    let second = item(alloc, "f", "add")?;
    let script = format!(in alloc; "print(\"a\"); {second} print(f(1, 2)); print(\"b\");")?;
    for steps in 0..15u32 {
        let word = format!(in alloc; "--steps={steps}")?;
        let got = over(alloc, word.as_str(), ADD.as_slice(), script.as_str())?;
        let expected = if steps < 2 {
            "Budget|budget: needs 1, left 0\n"
        } else if steps < 12 {
            "Budget|a\nbudget: needs 1, left 0\n"
        } else if steps < 14 {
            "Budget|a\n3\nbudget: needs 1, left 0\n"
        } else {
            "Done|a\n3\nb\n"
        };
        assert_eq!(rt; got.as_str(), expected, "at {steps}");
    }
    Ok(())
}

#[test]
fn exports_are_found_by_their_names(rt: HostRuntime) -> Result<(), Fail> {
    let alloc = rt.alloc();
    let mut bytes = Vec::from_slice(alloc, THREE.as_slice())?;
    for byte in THREE_END {
        bytes.push(byte)?;
    }
    let add = item(alloc, "a", "add")?;
    let dec = item(alloc, "d", "dec")?;
    let seven = item(alloc, "s", "seven")?;
    let cases = [
        ("print(s());", "Done|7\n"),
        ("print(s(a, 1,));", "ScriptRefused|script: not yet\n"),
        ("print(a(s(1), d(s())));", "Done|13\n"),
        ("print(d(0 - 2147483648), d());", "Done|2147483647 -1\n"),
        ("print(a(4294967296 + 5, 0 - 1));", "Done|4\n"),
        (
            "print(a(0 - 9007199254740991, 9007199254740991,));",
            "Done|0\n",
        ),
        ("print(a(2, 3) * d(5) - 1);", "Done|19\n"),
        ("print(\"x\" + a(2, 3));", "Done|x5\n"),
    ];
    for (last, expected) in cases {
        let script = format!(in alloc; "{add} {dec} {seven} {last}")?;
        let got = over(alloc, "--steps=100", bytes.as_slice(), script.as_str())?;
        assert_eq!(rt; got.as_str(), expected, "at {last}");
    }
    Ok(())
}

// A refused argument is told at the call's `(`, after the call's charge.
#[test]
fn texts_are_no_arguments(rt: HostRuntime) -> Result<(), Fail> {
    let alloc = rt.alloc();
    let first = item(alloc, "f", "add")?;
    let script = format!(in alloc; "{first}print(f(1, \"a\"));")?;
    let at = first.as_str().len() + 7;
    let refusal = format!(in alloc; "Outside|outside: text-number at {at}\n")?;
    let budget = "Budget|budget: needs 1, left 0\n";
    for (steps, expected) in [("--steps=5", budget), ("--steps=6", refusal.as_str())] {
        let got = over(alloc, steps, ADD.as_slice(), script.as_str())?;
        assert_eq!(rt; got.as_str(), expected, "at {steps}");
    }
    let dropped = format!(in alloc; "{first}print(f(1, 2, \"a\"));")?;
    let got = over(alloc, "--steps=100", ADD.as_slice(), dropped.as_str())?;
    assert_eq!(rt; got.as_str(), "Done|3\n");
    Ok(())
}

// What the item gives with three units and with four, where it binds nothing.
#[test]
fn items_end_the_run_after_their_charges(rt: HostRuntime) -> Result<(), Fail> {
    let alloc = rt.alloc();
    let budget = "Budget|budget: needs 1, left 0\n";
    let not_yet = "Outside|outside: not-yet at 0\n";
    let float = "Outside|outside: float at module byte 13\n";
    let error = "Uncaught|uncaught: CompileError\n";
    let mut untyped = Vec::from_slice(alloc, ADD.as_slice())?;
    assert_eq!(rt; untyped.len(), 41);
    untyped[38] = 2;
    let (malformed, _) = FLOATING.as_slice().split_at(14);
    let cases = [
        (ADD.as_slice(), "sub", budget, not_yet),
        (WIDE.as_slice(), "id", budget, not_yet),
        (untyped.as_slice(), "add", error, error),
        (FLOATING.as_slice(), "f", float, float),
        (malformed, "f", error, error),
    ];
    for (bytes, export, third, fourth) in cases {
        let script = item(alloc, "f", export)?;
        let got = over(alloc, "--steps=2", bytes, script.as_str())?;
        assert_eq!(rt; got.as_str(), budget);
        let got = over(alloc, "--steps=3", bytes, script.as_str())?;
        assert_eq!(rt; got.as_str(), third);
        let got = over(alloc, "--steps=4", bytes, script.as_str())?;
        assert_eq!(rt; got.as_str(), fourth);
    }
    Ok(())
}

// A name that no word gave is refused at the item's `let`, after all four charges.
#[test]
fn names_that_no_word_gave_are_refused(rt: HostRuntime) -> Result<(), Fail> {
    let alloc = rt.alloc();
    let script =
        " let f = new WebAssembly.Instance(new WebAssembly.Module(readbuffer(\"n\"))).exports.add;";
    let got = over(alloc, "--steps=3", ADD.as_slice(), script)?;
    assert_eq!(rt; got.as_str(), "Budget|budget: needs 1, left 0\n");
    let got = over(alloc, "--steps=4", ADD.as_slice(), script)?;
    assert_eq!(rt; got.as_str(), "Outside|outside: not-yet at 1\n");
    Ok(())
}
