//! Modules of their parts.

use std::alloc::Global;
use std::process::Abort;
use std::test::Fail;
use wasm_grammar::{DecodeError, decode};
use wasm_syntax::Module;

/// The most bytes that are decoded.
const MOST: usize = 1 << 24;

/// What `decode` answers, or that memory ran out where there are more bytes than it takes.
pub fn decoded(alloc: Global, bytes: &[u8]) -> Result<Result<Module, DecodeError>, Fail> {
    if bytes.len() > MOST {
        return Ok(Err(DecodeError::NoMemory));
    }
    Ok(decode(alloc, bytes))
}

/// Sections behind the preamble.
pub fn with_preamble(alloc: Global, sections: &[u8]) -> Result<Vec<u8>, Fail> {
    let mut bytes = Vec::new(alloc);
    bytes.extend_from_slice(b"\0asm\x01\0\0\0")?;
    bytes.extend_from_slice(sections)?;
    Ok(bytes)
}

/// What `decode` answers to sections behind the preamble.
pub fn sections(alloc: Global, sections: &[u8]) -> Result<Result<Module, DecodeError>, Fail> {
    let bytes = with_preamble(alloc, sections)?;
    decoded(alloc, bytes.as_slice())
}

/// A size below 2^28, in four bytes.
fn size(number: usize) -> [u8; 4] {
    let first = (number % 128) as u8 + 128;
    let second = (number / 128 % 128) as u8 + 128;
    let third = (number / 16384 % 128) as u8 + 128;
    let fourth = (number / 2097152 % 128) as u8;
    [first, second, third, fourth]
}

/// Where a body begins in the module that is made for it.
pub const BODY: u64 = 29;

/// A module of one function without parameters, results and locals, whose code these bytes are.
pub fn with_body(alloc: Global, code: &[u8]) -> Result<Vec<u8>, Fail> {
    let mut bytes = Vec::new(alloc);
    bytes.extend_from_slice(b"\0asm\x01\0\0\0")?;
    bytes.extend_from_slice(&[0x01, 0x04, 0x01, 0x60, 0x00, 0x00, 0x03, 0x02, 0x01, 0x00])?;
    bytes.push(0x0A)?;
    bytes.extend_from_slice(&size(code.len().saturating_add(6)))?;
    bytes.push(0x01)?;
    bytes.extend_from_slice(&size(code.len().saturating_add(1)))?;
    bytes.push(0x00)?;
    bytes.extend_from_slice(code)?;
    Ok(bytes)
}

/// What `decode` answers to a module of one function with this code.
pub fn body(alloc: Global, code: &[u8]) -> Result<Result<Module, DecodeError>, Fail> {
    let bytes = with_body(alloc, code)?;
    decoded(alloc, bytes.as_slice())
}

/// What the bytes of a case are.
#[derive(Clone, Copy, PartialEq, Eq, Debug)]
pub enum Part {
    Sections,
    Body,
}

fn refusal(alloc: Global, part: Part, case: &[u8]) -> Result<Option<DecodeError>, Fail> {
    match part {
        Part::Sections => Ok(sections(alloc, case)?.err()),
        Part::Body => Ok(body(alloc, case)?.err()),
    }
}

/// Each case of a table, which is a number of bytes and these bytes, gives this refusal, or none.
pub fn each(
    rt: &impl Abort,
    alloc: Global,
    part: Part,
    table: &[u8],
    wanted: Option<DecodeError>,
) -> Result<(), Fail> {
    let mut rest = table;
    for _ in 0..table.len() {
        let [len, tail @ ..] = rest else {
            return Ok(());
        };
        let len = *len as usize;
        assert!(rt; len <= tail.len(), "a case is cut");
        let (case, next) = tail.split_at(len);
        let left = rest.len();
        assert_eq!(rt;
            refusal(alloc, part, case)?,
            wanted,
            "{left} bytes before the table's end"
        );
        rest = next;
    }
    Ok(())
}

/// Whether the bytes are a module of the profile.
pub fn is_taken(alloc: Global, bytes: &[u8]) -> Result<bool, Fail> {
    Ok(decoded(alloc, bytes)?.is_ok())
}
