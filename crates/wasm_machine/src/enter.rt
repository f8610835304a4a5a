//! Frames are made (WebAssembly Core 2.0, section 4.4.10).

ghost use Rattle.std.specs.Prelude.{◌≡◌, ◌<◌, ◌≤◌, ◌+◌, ◌++◌, Some, length, IfOk, OnOk, OnErr, vec_capacity};
ghost use Rattle.wasm_machine.specs.Reduction.{default_of, default_locals, frame_for};
ghost use Rattle.wasm_machine.specs.View.{term_of};
ghost use Rattle.wasm_machine.specs.Fits.{Fits};
ghost use Rattle.wasm_machine.specs.Entering.{CanEnter};
ghost use Rattle.wasm_store.specs.Store.{type_of, function_at};

use crate::frame::WasmFrame;
use std::alloc::{AllocError, Global};
use wasm_store::{FuncInst, Store};
use wasm_syntax::{FuncAddr, InstAddr, ValType, Value};
use wasm_valid::MOST_LABELS;

/// The value with which a local of this type begins (WebAssembly Core 2.0, section 4.2.1).
fn default_value(ty: ValType) -> Value
    ensures { result ≡ default_of ty }
{
    match ty {
        ValType::I32 => Value::I32(0),
        ValType::I64 => Value::I64(0),
        ValType::FuncRef => Value::FuncNull,
        ValType::ExternRef => Value::ExternNull,
    }
}

/// How many locals there are beside the parameters, or the greatest number where they are more.
fn count(runs: &[(u32, ValType)]) -> usize {
    let mut sum: usize = 0;
    for run in runs {
        sum = sum.saturating_add(run.0 as usize);
    }
    sum
}

/// The locals of a function beside its parameters.
fn push_defaults(words: &mut Vec<Value>, runs: &[(u32, ValType)]) -> Result<(), AllocError>
    ensures { OnOk result (words.new.items ≡ words.old.items ++ default_locals runs.now) }
{
    for run in runs {
        let len = words.len();
        match len.checked_add(run.0 as usize) {
            Some(more) => words.resize(more, default_value(run.1))?,
            None => return Err(AllocError),
        }
    }
    Ok(())
}

/// The locals of a function, with room for so many operands.
fn locals_with_room(
    alloc: Global,
    args: &[Value],
    runs: &[(u32, ValType)],
    room: usize,
) -> Result<Vec<Value>, AllocError>
    ensures locals { IfOk result (λ words. words.items ≡ args.now ++ default_locals runs.now) }
    ensures room { IfOk result (λ words. length words.items + room ≤ vec_capacity words) }
{
    let all = args.len().saturating_add(count(runs)).saturating_add(room);
    let mut words = Vec::with_capacity(alloc, all)?;
    words.extend_from_slice(args)?;
    push_defaults(&mut words, runs)?;
    words.reserve(room)?;
    Ok(words)
}

impl WasmFrame {
    /// The frame of a function of a module that is called with these arguments, before its first instruction. Room for all operands
    /// that its body has at any place, and for its labels, is taken here.
    pub fn enter(
        alloc: Global,
        store: &Store,
        func: FuncAddr,
        args: &[Value],
    ) -> Result<WasmFrame, AllocError>
        requires { CanEnter store.now func args.now }
        ensures fits { IfOk result (Fits store.now (type_of (function_at store.now func)).results) }
        ensures stands { IfOk result (λ frame. frame_for store.now func args.now ≡ Some (term_of store.now frame)) }
    {
        store.whole();
        match store.func(func) {
            FuncInst::Wasm {
                ty,
                instance,
                index,
            } => {
                let address = store.instance(*instance).module;
                let valid = store.module(address);
                let room = valid.height(*index) as usize;
                let own = &valid.module().funcs.as_slice()[*index as usize];
                let words = locals_with_room(alloc, args, own.locals.as_slice(), room)?;
                let outer = Vec::with_capacity(alloc, MOST_LABELS)?;
                Ok(WasmFrame::begun(
                    *instance,
                    address,
                    ty.get().results.len(),
                    room,
                    words,
                    outer,
                    own.body,
                ))
            }
            _ => unreachable!(),
        }
    }
}
