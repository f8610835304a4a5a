use sqlite_items::Items;
use std::alloc::Global;
use std::test::Fail;
use wasm_syntax::{BlockId, BlockType, ExportDesc, FuncType, Instr, Module, Name, ValType};

/// A module with one type, and two blocks of which one holds the other.
fn small_module(alloc: Global) -> Result<Module, Fail> {
    let mut types = Items::new(alloc);
    let mut params = Items::new(alloc);
    params.push(ValType::I32)?;
    params.push(ValType::ExternRef)?;
    types.push(FuncType {
        params,
        results: Items::new(alloc),
    })?;
    let mut inner = Items::new(alloc);
    inner.push(Instr::I32Const(7))?;
    inner.push(Instr::Drop)?;
    let mut body = Items::new(alloc);
    body.push(Instr::Block(BlockType::Empty, BlockId(0)))?;
    let mut blocks = Items::new(alloc);
    blocks.push(inner)?;
    blocks.push(body)?;
    Ok(Module {
        types,
        imports: Items::new(alloc),
        funcs: Items::new(alloc),
        tables: Items::new(alloc),
        mems: Items::new(alloc),
        globals: Items::new(alloc),
        exports: Items::new(alloc),
        start: None,
        elems: Items::new(alloc),
        data_count: None,
        datas: Items::new(alloc),
        blocks,
    })
}

#[test]
fn a_block_is_lent_by_its_number(rt: HostRuntime) -> Result<(), Fail> {
    let module = small_module(rt.alloc())?;
    assert_eq!(rt; module.blocks.len(), 2);
    let inner = module.block(BlockId(0));
    assert_eq!(rt; inner.len(), 2);
    assert!(rt; matches!(&inner[0], Instr::I32Const(7)));
    assert!(rt; matches!(&inner[1], Instr::Drop));
    assert_eq!(rt; module.code(BlockId(0)).len(), 2);
    assert!(rt; module.code(BlockId(2)).is_empty());
    let body = module.block(BlockId(1));
    assert_eq!(rt; body.len(), 1);
    assert!(rt; matches!(&body[0], Instr::Block(BlockType::Empty, BlockId(0))));
    Ok(())
}

#[test]
fn types_are_copied_and_names_keep_their_text(rt: HostRuntime) -> Result<(), Fail> {
    let alloc = rt.alloc();
    let module = small_module(alloc)?;
    let Some(first) = module.types.get(0) else {
        return Ok(());
    };
    let copy = first.copy(alloc)?;
    assert_eq!(rt;
        copy.params.as_slice(),
        [ValType::I32, ValType::ExternRef].as_slice()
    );
    assert_eq!(rt; copy.results.len(), 0);
    let name = Name::from_str(alloc, "add")?;
    assert_eq!(rt; name.as_str(), "add");
    assert_ne!(rt; ExportDesc::Func(0), ExportDesc::Table(0));
    Ok(())
}
