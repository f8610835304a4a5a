//! Rules that stand outside the bodies.

use crate::parts::{alone, of_function, one, pair, two, verdict};
use sqlite_items::Items;
use std::alloc::Global;
use std::test::Fail;
use wasm_syntax::{
    BlockId, BlockType, Elem, GlobalDef, GlobalType, Import, ImportDesc, Instr, Limit, Mode,
    Module, Name, ValType,
};

fn constant(ty: ValType) -> GlobalType {
    GlobalType {
        val: ty,
        mutable: false,
    }
}

/// Globals that can't be set, of this type, with the blocks from number 0 on as their initialisers.
fn globals_of(alloc: Global, count: u32, ty: ValType) -> Result<Items<GlobalDef>, Fail> {
    let mut globals = Items::new(alloc);
    for id in 0..count {
        globals.push(GlobalDef {
            ty: constant(ty),
            init: BlockId(id),
        })?;
    }
    Ok(globals)
}

/// An import of this kind.
fn imports_of(alloc: Global, desc: ImportDesc) -> Result<Items<Import>, Fail> {
    let module = Name::from_str(alloc, "m")?;
    let name = Name::from_str(alloc, "x")?;
    let mut imports = Items::new(alloc);
    imports.push(Import { module, name, desc })?;
    Ok(imports)
}

/// A body that refers to its own function, in a module whose only other mention of it may be the initialiser of a global.
fn with_initialiser(alloc: Global, init: Instr) -> Result<u8, Fail> {
    let body = two(alloc, Instr::RefFunc(0), Instr::Drop)?;
    let blocks = pair(alloc, one(alloc, init)?, body)?;
    let globals = globals_of(alloc, 1, ValType::FuncRef)?;
    let mut module = of_function(alloc, &[], &[], &[], 1, blocks)?;
    module.globals = globals;
    Ok(verdict(alloc, module))
}

#[test]
fn a_function_is_declared_by_the_initialiser_of_a_global(rt: HostRuntime) -> Result<(), Fail> {
    assert_eq!(rt; with_initialiser(rt.alloc(), Instr::RefFunc(0))?, 0);
    assert_eq!(rt;
        with_initialiser(rt.alloc(), Instr::RefNull(ValType::FuncRef))?,
        2
    );
    Ok(())
}

/// A module of its own globals, of type i32, and an imported one that can't be set: a second global begins with the value of the one
/// with this index.
fn with_global(alloc: Global, read: u32) -> Result<u8, Fail> {
    let imports = imports_of(alloc, ImportDesc::Global(constant(ValType::I32)))?;
    let globals = globals_of(alloc, 2, ValType::I32)?;
    let mut blocks = pair(
        alloc,
        one(alloc, Instr::I32Const(5))?,
        one(alloc, Instr::GlobalGet(read))?,
    )?;
    blocks.push(Items::new(alloc))?;
    let mut module = of_function(alloc, &[], &[], &[], 2, blocks)?;
    module.imports = imports;
    module.globals = globals;
    Ok(verdict(alloc, module))
}

#[test]
fn a_constant_expression_reads_imported_globals_alone(rt: HostRuntime) -> Result<(), Fail> {
    assert_eq!(rt; with_global(rt.alloc(), 0)?, 0);
    assert_eq!(rt; with_global(rt.alloc(), 1)?, 1);
    Ok(())
}

/// A module that imports a memory.
fn with_memory(alloc: Global, min: u32, max: Option<u32>) -> Result<u8, Fail> {
    let imports = imports_of(alloc, ImportDesc::Mem(Limit { min, max }))?;
    let blocks = alone(alloc, Items::new(alloc))?;
    let mut module = of_function(alloc, &[], &[], &[], 0, blocks)?;
    module.imports = imports;
    Ok(verdict(alloc, module))
}

#[test]
fn an_imported_memory_has_at_most_65_536_pages(rt: HostRuntime) -> Result<(), Fail> {
    assert_eq!(rt; with_memory(rt.alloc(), 65_536, Some(65_536))?, 0);
    assert_eq!(rt; with_memory(rt.alloc(), 65_537, None)?, 1);
    assert_eq!(rt; with_memory(rt.alloc(), 0, Some(65_537))?, 1);
    Ok(())
}

/// A module with an empty element segment of this type.
fn with_segment(alloc: Global, ty: ValType) -> Result<u8, Fail> {
    let mut elems = Items::new(alloc);
    elems.push(Elem {
        ty,
        items: Items::new(alloc),
        mode: Mode::Passive,
    })?;
    let blocks = alone(alloc, Items::new(alloc))?;
    let mut module = of_function(alloc, &[], &[], &[], 0, blocks)?;
    module.elems = elems;
    Ok(verdict(alloc, module))
}

#[test]
fn a_segment_holds_references(rt: HostRuntime) -> Result<(), Fail> {
    assert_eq!(rt; with_segment(rt.alloc(), ValType::FuncRef)?, 0);
    assert_eq!(rt; with_segment(rt.alloc(), ValType::ExternRef)?, 0);
    assert_eq!(rt; with_segment(rt.alloc(), ValType::I32)?, 1);
    assert_eq!(rt; with_segment(rt.alloc(), ValType::I64)?, 1);
    Ok(())
}

/// A module of an empty block and one that holds the block of this number: the empty one stands first unless they are swapped.
fn nested(alloc: Global, held: u32, body: u32, swapped: bool) -> Result<u8, Fail> {
    let outer = one(alloc, Instr::Block(BlockType::Empty, BlockId(held)))?;
    let inner = Items::new(alloc);
    let blocks = if swapped {
        pair(alloc, outer, inner)?
    } else {
        pair(alloc, inner, outer)?
    };
    let module = of_function(alloc, &[], &[], &[], body, blocks)?;
    Ok(verdict(alloc, module))
}

#[test]
fn blocks_are_numbered_as_they_end(rt: HostRuntime) -> Result<(), Fail> {
    let alloc = rt.alloc();
    assert_eq!(rt; nested(alloc, 0, 1, false)?, 0);
    // the block within has the greater number
    assert_eq!(rt; nested(alloc, 1, 0, true)?, 1);
    // a block within itself
    assert_eq!(rt; nested(alloc, 1, 1, false)?, 1);
    // a block that stands nowhere
    assert_eq!(rt; nested(alloc, 0, 0, false)?, 1);
    // a block that isn't there
    assert_eq!(rt; nested(alloc, 2, 1, false)?, 1);
    Ok(())
}
