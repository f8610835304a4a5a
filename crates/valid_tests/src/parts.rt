//! Modules with one function, and how they are judged.

use sqlite_items::Items;
use std::alloc::Global;
use std::test::Fail;
use wasm_syntax::{BlockId, Func, FuncType, Instr, Module, ValType};
use wasm_valid::{Invalid, validate};

/// How a module is judged: 0 where it is valid, 1 where a rule outside the bodies fails, 2 where the body of function 0 isn't typed, 3
/// where another body is the first one that isn't, and 4 where there was no memory.
pub fn verdict(alloc: Global, module: Module) -> u8 {
    match validate(alloc, module) {
        Ok(_) => 0,
        Err(Invalid::Invalid { function: None }) => 1,
        Err(Invalid::Invalid { function: Some(0) }) => 2,
        Err(Invalid::Invalid { function: Some(_) }) => 3,
        Err(Invalid::NoMemory) => 4,
    }
}

/// A block of one instruction.
pub fn one(alloc: Global, only: Instr) -> Result<Items<Instr>, Fail> {
    let mut code = Items::new(alloc);
    code.push(only)?;
    Ok(code)
}

/// A block of two instructions.
pub fn two(alloc: Global, first: Instr, second: Instr) -> Result<Items<Instr>, Fail> {
    let mut code = Items::new(alloc);
    code.push(first)?;
    code.push(second)?;
    Ok(code)
}

/// One block.
pub fn alone(alloc: Global, only: Items<Instr>) -> Result<Items<Items<Instr>>, Fail> {
    let mut blocks = Items::new(alloc);
    blocks.push(only)?;
    Ok(blocks)
}

/// Two blocks.
pub fn pair(
    alloc: Global,
    first: Items<Instr>,
    second: Items<Instr>,
) -> Result<Items<Items<Instr>>, Fail> {
    let mut blocks = Items::new(alloc);
    blocks.push(first)?;
    blocks.push(second)?;
    Ok(blocks)
}

fn one_type(
    alloc: Global,
    params: &[ValType],
    results: &[ValType],
) -> Result<Items<FuncType>, Fail> {
    let params = Items::from_slice(alloc, params)?;
    let results = Items::from_slice(alloc, results)?;
    let mut types = Items::new(alloc);
    types.push(FuncType { params, results })?;
    Ok(types)
}

fn one_func(alloc: Global, locals: &[(u32, ValType)], body: u32) -> Result<Items<Func>, Fail> {
    let locals = Items::from_slice(alloc, locals)?;
    let mut funcs = Items::new(alloc);
    funcs.push(Func {
        ty: 0,
        locals,
        body: BlockId(body),
    })?;
    Ok(funcs)
}

/// A module of one function of this type, with these locals and the body of this number.
pub fn of_function(
    alloc: Global,
    params: &[ValType],
    results: &[ValType],
    locals: &[(u32, ValType)],
    body: u32,
    blocks: Items<Items<Instr>>,
) -> Result<Module, Fail> {
    let types = one_type(alloc, params, results)?;
    let funcs = one_func(alloc, locals, body)?;
    Ok(Module {
        types,
        imports: Items::new(alloc),
        funcs,
        tables: Items::new(alloc),
        mems: Items::new(alloc),
        globals: Items::new(alloc),
        exports: Items::new(alloc),
        start: None,
        elems: Items::new(alloc),
        data_count: None,
        datas: Items::new(alloc),
        blocks,
    })
}
