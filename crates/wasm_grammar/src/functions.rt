//! Globals and code entries (WebAssembly Core 2.0, sections 5.5.9 and 5.5.13).

ghost use Rattle.std.specs.Prelude.{◌≡◌, ◌≤◌, ◌<◌, ◌+◌, ◌^◌, IfOk, length};
ghost use Rattle.wasm_grammar.specs.Answers.{Gives};
ghost use Rattle.wasm_grammar.specs.Functions.{global_in, local_in, few_locals, locals_in, function_in, entry_in};

use crate::built::Built;
use crate::expressions::{body_of, expression_of};
use crate::fault::ReadError;
use crate::numbers::u32_of;
use crate::parts::part_of;
use crate::types::{global_type_of, val_type_of};
use crate::vectors::{Item, vector_of};
use sqlite_items::Items;
use std::alloc::Global;
use wasm_syntax::{BlockId, GlobalDef, ValType};

/// A function without its type: its locals as runs of one type each, and its body.
#[derive(Drop)]
pub struct CodeEntry {
    pub locals: Items<(u32, ValType)>,
    pub body: BlockId,
}

impl Item for GlobalDef {
    type Value = GlobalDef;

    ghost reading = { global_in };

    fn read<'a>(
        alloc: Global,
        built: &mut Built,
        after: u64,
        bytes: &'a [u8],
    ) -> Result<(GlobalDef, &'a [u8]), ReadError> {
        let (ty, rest) = global_type_of(built, after, bytes)?;
        let (init, rest) = expression_of(alloc, false, built, after, rest)?;
        Ok((GlobalDef { ty, init }, rest))
    }
}

impl Item for (u32, ValType) {
    type Value = (u32, ValType);

    ghost reading = { local_in };

    fn read<'a>(
        _alloc: Global,
        built: &mut Built,
        after: u64,
        bytes: &'a [u8],
    ) -> Result<((u32, ValType), &'a [u8]), ReadError> {
        let (count, rest) = u32_of(bytes)?;
        let (val, rest) = val_type_of(built, after, rest)?;
        Ok(((count, val), rest))
    }
}

/// Whether a function may have so many locals: fewer than 2^32 in all.
fn are_few(runs: &[(u32, ValType)]) -> bool
    ensures { result ≡ few_locals runs.now }
{
    let mut sum: u32 = 0;
    for (count, _) in runs {
        match sum.checked_add(*count) {
            Some(next) => sum = next,
            None => return false,
        }
    }
    true
}

/// The locals at the front, as runs, and what stands behind them.
fn locals_of<'a>(
    alloc: Global,
    built: &mut Built,
    after: u64,
    bytes: &'a [u8],
) -> Result<(Items<(u32, ValType)>, &'a [u8]), ReadError>
    requires { length built.old.blocks + after + length bytes.now < 2 ^ 32 }
    ensures room { IfOk result (λ x. length built.new.blocks + length x.1.now ≤ length built.old.blocks + length bytes.now) }
    ensures gives { Gives (λ x. ((x.0, built.new), x.1.now)) result (locals_in built.old after bytes.now) }
{
    let (locals, rest) = vector_of::<(u32, ValType)>(alloc, built, after, bytes)?;
    if !are_few(locals.as_slice()) {
        return Err(ReadError::Malformed);
    }
    Ok((locals, rest))
}

/// The function that these bytes spell, all of them.
fn function_of(
    alloc: Global,
    built: &mut Built,
    after: u64,
    bytes: &[u8],
) -> Result<CodeEntry, ReadError>
    requires { length built.old.blocks + after + length bytes.now < 2 ^ 32 }
    ensures room { IfOk result (λ x. length built.new.blocks ≤ length built.old.blocks + length bytes.now) }
    ensures gives { Gives (λ x. (x, built.new)) result (function_in built.old after bytes.now) }
{
    let (locals, rest) = locals_of(alloc, built, after, bytes)?;
    let body = body_of(alloc, built, after, rest)?;
    Ok(CodeEntry { locals, body })
}

impl Item for CodeEntry {
    type Value = CodeEntry;

    ghost reading = { entry_in };

    fn read<'a>(
        alloc: Global,
        built: &mut Built,
        after: u64,
        bytes: &'a [u8],
    ) -> Result<(CodeEntry, &'a [u8]), ReadError> {
        let (part, rest) = part_of(bytes)?;
        let entry = function_of(alloc, built, after + rest.len() as u64, part)?;
        Ok((entry, rest))
    }
}
