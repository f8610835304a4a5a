//! Values of constant expressions (WebAssembly Core 2.0, section 3.3.10).

ghost use Rattle.std.specs.Prelude.{◌≡◌, ◌<◌, ℕ, map, length, slice_get, Some, IfOk};
ghost use Rattle.std.specs.List.{All};
ghost use Rattle.wasm_syntax.specs.Blocks.{block_of};
ghost use Rattle.wasm_syntax.specs.declared.addresses.GlobalAddr.{GlobalAddr};
ghost use Rattle.wasm_store.specs.Store.{global_at};
ghost use Rattle.wasm_store.specs.Allocated.{null_of, constant, first_constant};
ghost use Rattle.wasm_instance.specs.Instantiation.{number_of};

use std::alloc::{AllocError, Global};
use wasm_store::Store;
use wasm_syntax::{BlockId, FuncAddr, GlobalAddr, Instr, Module, ValType, Value};

/// The values that these globals have.
pub(crate) fn imported_values(
    alloc: Global,
    store: &Store,
    globals: &[GlobalAddr],
) -> Result<Vec<Value>, AllocError>
    requires { All (λ (g : GlobalAddr). g.0 < length store.now.globals) globals.now }
    ensures { IfOk result (λ values. values.items ≡ map (λ (g : GlobalAddr). (global_at store.now g).value) globals.now) }
{
    let mut values = Vec::new(alloc);
    for global in globals {
        values.push(store.global_get(*global))?;
    }
    Ok(values)
}

/// The null reference of a type.
pub(crate) fn null(ty: ValType) -> Value
    ensures { result ≡ null_of ty }
{
    match ty {
        ValType::ExternRef => Value::ExternNull,
        _ => Value::FuncNull,
    }
}

/// The value of a constant instruction.
fn constant(funcs: &[FuncAddr], values: &[Value], instr: &Instr) -> Value
    ensures { result ≡ constant funcs.now values.now instr.now }
{
    match instr {
        Instr::I32Const(number) => Value::I32(*number),
        Instr::I64Const(number) => Value::I64(*number),
        Instr::RefNull(ty) => null(*ty),
        Instr::RefFunc(x) => match funcs.get(*x as usize) {
            Some(func) => Value::Func(*func),
            None => Value::Func(FuncAddr(0)),
        },
        Instr::GlobalGet(x) => match values.get(*x as usize) {
            Some(value) => *value,
            None => Value::FuncNull,
        },
        _ => Value::FuncNull,
    }
}

/// The value of a constant expression, where these are the functions and the values of the imported globals.
pub(crate) fn value(module: &Module, funcs: &[FuncAddr], values: &[Value], id: BlockId) -> Value
    ensures { result ≡ first_constant funcs.now values.now (block_of «module».now id) }
{
    match module.code(id) {
        [first, ..] => constant(funcs, values, first),
        [] => Value::FuncNull,
    }
}

/// The number of an offset.
pub(crate) fn number(value: Value) -> u32
    ensures { result ≡ number_of value }
{
    match value {
        Value::I32(number) => number,
        _ => 0,
    }
}
