//! What decoded modules hold.

use crate::making::{body, decoded, sections};
use crate::samples::{ADD, TABLES};
use std::test::Fail;
use wasm_syntax::{
    BlockId, BlockType, ExportDesc, GlobalType, IfParts, ImportDesc, Instr, Mode, Module, ValType,
};

fn has_function(module: &Module, index: usize, ty: u32, body: BlockId) -> bool {
    match module.funcs.get(index) {
        Some(func) => func.ty == ty && func.locals.is_empty() && func.body == body,
        None => false,
    }
}

fn has_type(module: &Module, index: usize, params: &[ValType], results: &[ValType]) -> bool {
    match module.types.get(index) {
        Some(ty) => ty.params.as_slice() == params && ty.results.as_slice() == results,
        None => false,
    }
}

fn has_export(module: &Module, index: usize, name: &str, desc: ExportDesc) -> bool {
    match module.exports.get(index) {
        Some(export) => export.name.as_str() == name && export.desc == desc,
        None => false,
    }
}

fn has_segment(module: &Module, index: usize, ty: ValType, items: &[BlockId], mode: Mode) -> bool {
    match module.elems.get(index) {
        Some(elem) => elem.ty == ty && elem.items.as_slice() == items && elem.mode == mode,
        None => false,
    }
}

#[test]
fn the_parts_of_a_small_module(rt: HostRuntime) -> Result<(), Fail> {
    let module = decoded(rt.alloc(), &ADD)??;
    assert!(rt; has_function(&module, 0, 0, BlockId(0)));
    assert!(rt; has_type(&module, 0, &[ValType::I32, ValType::I32], &[ValType::I32]));
    assert!(rt; has_export(&module, 0, "add", ExportDesc::Func(0)));
    assert_eq!(rt; module.blocks.len(), 1);
    assert!(rt;
        matches!(
            module.code(BlockId(0)),
            [Instr::LocalGet(0), Instr::LocalGet(1), Instr::I32Add]
        )
    );
    Ok(())
}

#[test]
fn blocks_of_segments_and_then_of_bodies(rt: HostRuntime) -> Result<(), Fail> {
    let module = decoded(rt.alloc(), &TABLES)??;
    let mode = Mode::Active {
        index: 0,
        offset: BlockId(0),
    };
    assert!(rt; has_segment(&module, 0, ValType::FuncRef, &[BlockId(1)], mode));
    assert!(rt; matches!(module.code(BlockId(1)), [Instr::RefFunc(0)]));
    assert!(rt; has_function(&module, 0, 0, BlockId(2)));
    assert!(rt; has_function(&module, 1, 1, BlockId(3)));
    assert_eq!(rt; module.blocks.len(), 4);
    Ok(())
}

/// A body of a block that holds an `if` with both its parts, and an `if` without a second one.
static NESTED: [u8; 28] = [
    0x01, 0x04, 0x01, 0x60, 0x00, 0x00, 0x03, 0x02, 0x01, 0x00, 0x0A, 0x10, 0x01, 0x0E, 0x00, 0x02,
    0x40, 0x04, 0x40, 0x00, 0x05, 0x01, 0x0B, 0x0B, 0x04, 0x40, 0x0B, 0x0B,
];

#[test]
fn blocks_are_numbered_as_they_end(rt: HostRuntime) -> Result<(), Fail> {
    let module = sections(rt.alloc(), &NESTED)??;
    assert_eq!(rt; module.blocks.len(), 6);
    assert_eq!(rt; module.code(BlockId(2)).len(), 1);
    assert!(rt; has_if(&module, BlockId(2), 0, BlockId(0), BlockId(1)));
    assert_eq!(rt; module.code(BlockId(5)).len(), 2);
    assert!(rt;
        matches!(
            module.code(BlockId(5)),
            [Instr::Block(BlockType::Empty, BlockId(2)), ..]
        )
    );
    assert!(rt; has_if(&module, BlockId(5), 1, BlockId(3), BlockId(4)));
    Ok(())
}

/// One element segment of each flag.
static SEGMENTS: [u8; 52] = [
    0x09, 0x32, 0x08, 0x00, 0x41, 0x00, 0x0B, 0x01, 0x05, 0x01, 0x00, 0x01, 0x05, 0x02, 0x03, 0x41,
    0x00, 0x0B, 0x00, 0x01, 0x05, 0x03, 0x00, 0x01, 0x05, 0x04, 0x41, 0x00, 0x0B, 0x01, 0xD2, 0x05,
    0x0B, 0x05, 0x6F, 0x01, 0xD0, 0x6F, 0x0B, 0x06, 0x04, 0x41, 0x00, 0x0B, 0x70, 0x01, 0xD2, 0x05,
    0x0B, 0x07, 0x70, 0x00,
];

#[test]
fn element_segments_by_their_flags(rt: HostRuntime) -> Result<(), Fail> {
    let module = sections(rt.alloc(), &SEGMENTS)??;
    let active = Mode::Active {
        index: 3,
        offset: BlockId(3),
    };
    assert_eq!(rt; module.elems.len(), 8);
    assert!(rt; has_segment(&module, 2, ValType::FuncRef, &[BlockId(4)], active));
    assert!(rt; has_segment(&module, 5, ValType::ExternRef, &[BlockId(8)], Mode::Passive));
    assert!(rt; has_segment(&module, 7, ValType::FuncRef, &[], Mode::Declared));
    Ok(())
}

fn has_if(module: &Module, block: BlockId, at: usize, one: BlockId, two: BlockId) -> bool {
    let wanted = IfParts {
        ty: BlockType::Empty,
        body: one,
        other: two,
    };
    match module.code(block).get(at) {
        Some(Instr::If(parts)) => *parts.get() == wanted,
        _ => false,
    }
}

fn has_import(module: &Module, index: usize, from: &str, name: &str, desc: ImportDesc) -> bool {
    match module.imports.get(index) {
        Some(import) => {
            import.module.as_str() == from && import.name.as_str() == name && import.desc == desc
        }
        None => false,
    }
}

/// A `br_table` with these labels.
fn has_labels(module: &Module, block: BlockId, wanted: &[u32], last: u32) -> bool {
    match module.code(block) {
        [Instr::BrTable { default, labels }] => {
            *default == last && labels.get().as_slice() == wanted
        }
        _ => false,
    }
}

/// A `select` with these types.
fn has_types(module: &Module, block: BlockId, wanted: &[ValType]) -> bool {
    match module.code(block) {
        [Instr::SelectTyped(types)] => types.get().as_slice() == wanted,
        _ => false,
    }
}

#[test]
fn imports_and_exports(rt: HostRuntime) -> Result<(), Fail> {
    let bytes = [
        0x02, 0x08, 0x01, 0x01, b'm', 0x01, b'g', 0x03, 0x7E, 0x01, 0x07, 0x07, 0x01, 0x03, b'a',
        b'd', b'd', 0x00, 0x05,
    ];
    let module = sections(rt.alloc(), &bytes)??;
    let desc = ImportDesc::Global(GlobalType {
        val: ValType::I64,
        mutable: true,
    });
    assert!(rt; has_import(&module, 0, "m", "g", desc));
    assert!(rt; has_export(&module, 0, "add", ExportDesc::Func(5)));
    Ok(())
}

#[test]
fn instructions_with_immediates(rt: HostRuntime) -> Result<(), Fail> {
    let module = body(rt.alloc(), &[0x22, 0x81, 0x00, 0x41, 0x7F, 0x0B])??;
    assert!(rt;
        matches!(
            module.code(BlockId(0)),
            [Instr::LocalTee(1), Instr::I32Const(0xFFFF_FFFF)]
        )
    );
    Ok(())
}

#[test]
fn instructions_with_lists(rt: HostRuntime) -> Result<(), Fail> {
    let module = body(rt.alloc(), &[0x0E, 0x02, 0x07, 0x81, 0x01, 0x03, 0x0B])??;
    assert!(rt; has_labels(&module, BlockId(0), &[7, 129], 3));
    let module = body(rt.alloc(), &[0x1C, 0x02, 0x7E, 0x6F, 0x0B])??;
    assert!(rt; has_types(&module, BlockId(0), &[ValType::I64, ValType::ExternRef]));
    Ok(())
}

#[test]
fn blocks_of_a_types_index(rt: HostRuntime) -> Result<(), Fail> {
    let module = body(rt.alloc(), &[0x02, 0x85, 0x00, 0x0B, 0x0B])??;
    assert!(rt;
        matches!(
            module.code(BlockId(1)),
            [Instr::Block(BlockType::Index(5), BlockId(0))]
        )
    );
    let module = body(rt.alloc(), &[0x04, 0x40, 0x0B, 0x0B])??;
    assert!(rt; has_if(&module, BlockId(2), 0, BlockId(0), BlockId(1)));
    Ok(())
}
