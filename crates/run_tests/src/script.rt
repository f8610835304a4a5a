use embed_base::{PlainString, Status};
use embed_script::{ModuleFile, run_script};
use small_lexer::tokens;
use small_parser::parse;
use std::alloc::Global;
use std::test::Fail;

// A module with one function, `add`, that adds its two parameters.
static ADD: [u8; 41] = [
    0x00, 0x61, 0x73, 0x6D, 0x01, 0x00, 0x00, 0x00, 0x01, 0x07, 0x01, 0x60, 0x02, 0x7F, 0x7F, 0x01,
    0x7F, 0x03, 0x02, 0x01, 0x00, 0x07, 0x07, 0x01, 0x03, 0x61, 0x64, 0x64, 0x00, 0x00, 0x0A, 0x09,
    0x01, 0x07, 0x00, 0x20, 0x00, 0x20, 0x01, 0x6A, 0x0B,
];

static SCRIPT: &str =
    "let f = new WebAssembly.Instance(new WebAssembly.Module(readbuffer(\"m\"))).exports.add; \
print(f(2147483647, 1), \"and\", f(7)); print(1 - \"a\");";

// What the script gives over the module with so many units: its status, and whether its text is this one.
fn gives(alloc: Global, budget: u64, text: &str) -> Result<(Status, bool), Fail> {
    let Ok(tokens) = tokens(alloc, SCRIPT) else {
        return Err("no tokens".into());
    };
    let Ok(script) = parse(alloc, tokens.as_slice(), SCRIPT.len() as u32) else {
        return Err("no script".into());
    };
    let name = PlainString::from_str(alloc, "m")?;
    let bytes = Vec::from_slice(alloc, ADD.as_slice())?;
    let files = [ModuleFile { name, bytes }];
    let transcript = run_script(alloc, &script, &files, budget)?;
    Ok((transcript.status, transcript.text.as_str() == text))
}

#[test]
fn a_script_runs_over_a_module(rt: HostRuntime) -> Result<(), Fail> {
    let text = "-2147483648 and 7\noutside: text-number at 133\n";
    let (status, same) = gives(rt.alloc(), 15, text)?;
    assert_eq!(rt; status, Status::Outside);
    assert!(rt; same);
    Ok(())
}

// The item takes four units, each call of the function four, and a statement and its `print` one each.
#[test]
fn a_run_ends_with_its_units(rt: HostRuntime) -> Result<(), Fail> {
    let alloc = rt.alloc();
    let text = "-2147483648 and 7\nbudget: needs 1, left 0\n";
    let (status, same) = gives(alloc, 14, text)?;
    assert_eq!(rt; status, Status::Budget);
    assert!(rt; same);
    let (status, same) = gives(alloc, 13, "budget: needs 1, left 0\n")?;
    assert_eq!(rt; status, Status::Budget);
    assert!(rt; same);
    Ok(())
}
