//! Bodies, their heights and their locals.

use crate::parts::{alone, of_function, one, two, verdict};
use sqlite_items::Items;
use std::alloc::Global;
use std::test::Fail;
use wasm_syntax::{Instr, Module, ValType};
use wasm_valid::validate;

/// A module with one function, which adds its first parameter and the one with a number.
fn adding(alloc: Global, second: u32) -> Result<Module, Fail> {
    let mut code = two(alloc, Instr::LocalGet(0), Instr::LocalGet(second))?;
    code.push(Instr::I32Add)?;
    let blocks = alone(alloc, code)?;
    of_function(
        alloc,
        &[ValType::I32, ValType::I32],
        &[ValType::I32],
        &[],
        0,
        blocks,
    )
}

#[test]
fn a_valid_module_is_kept_with_its_heights(rt: HostRuntime) -> Result<(), Fail> {
    let alloc = rt.alloc();
    let module = adding(alloc, 1)?;
    match validate(alloc, module) {
        Ok(valid) => {
            assert_eq!(rt; valid.module().funcs.len(), 1);
            assert_eq!(rt; valid.height(0), 2);
        }
        Err(_) => return Err("not valid".into()),
    }
    Ok(())
}

#[test]
fn a_local_that_is_not_there_is_found_in_its_function(rt: HostRuntime) -> Result<(), Fail> {
    let alloc = rt.alloc();
    let module = adding(alloc, 2)?;
    assert_eq!(rt; verdict(alloc, module), 2);
    Ok(())
}

/// The locals behind a parameter of type i32.
static RUNS: [(u32, ValType); 4] = [
    (2, ValType::I64),
    (0, ValType::I32),
    (1, ValType::FuncRef),
    (1, ValType::ExternRef),
];

/// Local variables by their index, a type, and how a body that gives the one as a result of the other is judged.
static LOCALS: [(u32, ValType, u8); 8] = [
    (0, ValType::I32, 0),
    (1, ValType::I64, 0),
    (2, ValType::I64, 0),
    (2, ValType::FuncRef, 2),
    (3, ValType::FuncRef, 0),
    (4, ValType::ExternRef, 0),
    (4, ValType::FuncRef, 2),
    (5, ValType::ExternRef, 2),
];

fn with_local(alloc: Global, index: u32, ty: ValType) -> Result<u8, Fail> {
    let blocks = alone(alloc, one(alloc, Instr::LocalGet(index))?)?;
    let module = of_function(alloc, &[ValType::I32], &[ty], &RUNS, 0, blocks)?;
    Ok(verdict(alloc, module))
}

#[test]
fn a_local_is_found_in_its_run(rt: HostRuntime) -> Result<(), Fail> {
    for (index, ty, wanted) in &LOCALS {
        assert_eq!(rt; with_local(rt.alloc(), *index, *ty)?, *wanted);
    }
    Ok(())
}

/// A function with a parameter and so many other locals.
fn with_locals(alloc: Global, count: u32) -> Result<u8, Fail> {
    let blocks = alone(alloc, Items::new(alloc))?;
    let module = of_function(
        alloc,
        &[ValType::I32],
        &[],
        &[(count, ValType::I64)],
        0,
        blocks,
    )?;
    Ok(verdict(alloc, module))
}

#[test]
fn fifty_thousand_locals_are_counted_with_the_parameters(rt: HostRuntime) -> Result<(), Fail> {
    assert_eq!(rt; with_locals(rt.alloc(), 49_999)?, 0);
    assert_eq!(rt; with_locals(rt.alloc(), 50_000)?, 2);
    Ok(())
}

fn with_null(alloc: Global, ty: ValType) -> Result<u8, Fail> {
    let blocks = alone(alloc, two(alloc, Instr::RefNull(ty), Instr::Drop)?)?;
    let module = of_function(alloc, &[], &[], &[], 0, blocks)?;
    Ok(verdict(alloc, module))
}

#[test]
fn a_null_is_a_reference(rt: HostRuntime) -> Result<(), Fail> {
    assert_eq!(rt; with_null(rt.alloc(), ValType::FuncRef)?, 0);
    assert_eq!(rt; with_null(rt.alloc(), ValType::ExternRef)?, 0);
    assert_eq!(rt; with_null(rt.alloc(), ValType::I32)?, 2);
    assert_eq!(rt; with_null(rt.alloc(), ValType::I64)?, 2);
    Ok(())
}
