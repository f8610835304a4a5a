//! Large modules, where memory is ample.

use crate::making::{body, decoded, sections, with_preamble};
use std::alloc::Global;
use std::test::Fail;
use wasm_syntax::{BlockId, BlockType, Instr, Module};

#[test]
fn blocks_may_nest_as_deep_as_the_file_is_long(rt: HostRuntime) -> Result<(), Fail> {
    let alloc = rt.alloc();
    let head = [
        0x01, 0x04, 0x01, 0x60, 0x00, 0x00, 0x03, 0x02, 0x01, 0x00, 0x0A, 0xE6, 0xA7, 0x12, 0x01,
        0xE2, 0xA7, 0x12, 0x00,
    ];
    let mut bytes = with_preamble(alloc, &head)?;
    for _ in 0..100_000 {
        bytes.extend_from_slice(&[0x02, 0x40])?;
    }
    for _ in 0..100_001 {
        bytes.push(0x0B)?;
    }
    let module = decoded(alloc, bytes.as_slice())??;
    assert_eq!(rt; module.blocks.len(), 100_001);
    Ok(())
}

/// Code of so many times these bytes, and its end.
fn repeated(alloc: Global, bytes: &[u8], times: u32) -> Result<Vec<u8>, Fail> {
    let mut code = Vec::new(alloc);
    for _ in 0..times {
        code.extend_from_slice(bytes)?;
    }
    code.push(0x0B)?;
    Ok(code)
}

/// Whether each instruction of the last block is a block, and these are numbered in order.
fn are_blocks_in_order(module: &Module, count: u32) -> bool {
    let mut next = 0;
    for instr in module.code(BlockId(count)) {
        match instr {
            Instr::Block(BlockType::Empty, BlockId(id)) if *id == next => next =
                next.saturating_add(1),
            _ => return false,
        }
    }
    next == count
}

/// Whether a module of these bytes so many times over has a block for each, in order, and one that holds them.
fn has_blocks_in_order(alloc: Global, block: &[u8], count: u32) -> Result<bool, Fail> {
    let code = repeated(alloc, block, count)?;
    let module = body(alloc, code.as_slice())??;
    Ok(
        module.blocks.len() == (count as usize).saturating_add(1)
            && are_blocks_in_order(&module, count),
    )
}

#[test]
fn a_million_blocks_side_by_side(rt: HostRuntime) -> Result<(), Fail> {
    assert!(rt; has_blocks_in_order(rt.alloc(), &[0x02, 0x40, 0x0B], 1_000_000)?);
    Ok(())
}

#[test]
fn a_hundred_thousand_instructions(rt: HostRuntime) -> Result<(), Fail> {
    let code = repeated(rt.alloc(), &[0x01], 100_000)?;
    let module = body(rt.alloc(), code.as_slice())??;
    assert_eq!(rt; module.blocks.len(), 1);
    assert_eq!(rt; module.code(BlockId(0)).len(), 100_000);
    Ok(())
}

/// The length of the first export's name.
fn name_length(module: &Module) -> Option<usize> {
    match module.exports.get(0) {
        Some(export) => Some(export.name.as_str().len()),
        None => None,
    }
}

#[test]
fn a_name_of_1000_bytes(rt: HostRuntime) -> Result<(), Fail> {
    // one export, whose name has 1000 bytes, of function 0
    let mut bytes = Vec::new(rt.alloc());
    bytes.extend_from_slice(&[0x07, 0xED, 0x07, 0x01, 0xE8, 0x07])?;
    for _ in 0..1000 {
        bytes.push(b'n')?;
    }
    bytes.extend_from_slice(&[0x00, 0x00])?;
    let module = sections(rt.alloc(), bytes.as_slice())??;
    assert_eq!(rt; name_length(&module), Some(1000));
    Ok(())
}
