//! Element and data segments (WebAssembly Core 2.0, sections 5.5.12 and 5.5.14).

ghost use Rattle.std.specs.Prelude.{◌≡◌, ◌≤◌, ◌<◌, ◌+◌, ◌^◌, IfOk, length};
ghost use Rattle.wasm_grammar.specs.Answers.{Gives};
ghost use Rattle.wasm_grammar.specs.Running.{expression_in};
ghost use Rattle.wasm_grammar.specs.Segments.{first_in, indexed_in, func_ref_in, funcs_in, kind_in, func_exprs_in, exprs_in, elem_of, elem_in, data_at, data_in};

use crate::blocks::ended;
use crate::built::Built;
use crate::expressions::expression_of;
use crate::fault::ReadError;
use crate::numbers::u32_of;
use crate::parts::part_of;
use crate::types::ref_type_of;
use crate::vectors::{Item, vector_of};
use sqlite_items::Items;
use std::alloc::Global;
use wasm_syntax::{BlockId, Data, Elem, Instr, Mode, ValType};

/// References of one type.
type Refs = (ValType, Items<BlockId>);

/// An expression outside of the code of functions.
impl Item for BlockId {
    ghost use Rattle.std.specs.Prelude.{false};

    type Value = BlockId;

    ghost reading = { expression_in false };

    fn read<'a>(
        alloc: Global,
        built: &mut Built,
        after: u64,
        bytes: &'a [u8],
    ) -> Result<(BlockId, &'a [u8]), ReadError> {
        expression_of(alloc, false, built, after, bytes)
    }
}

/// The offset at the front, in the table or memory 0.
fn first_of<'a>(
    alloc: Global,
    built: &mut Built,
    after: u64,
    bytes: &'a [u8],
) -> Result<(Mode, &'a [u8]), ReadError>
    requires { length built.old.blocks + after + length bytes.now < 2 ^ 32 }
    ensures room { IfOk result (λ x. length built.new.blocks + length x.1.now ≤ length built.old.blocks + length bytes.now) }
    ensures gives { Gives (λ x. ((x.0, built.new), x.1.now)) result (first_in built.old after bytes.now) }
{
    let (offset, rest) = expression_of(alloc, false, built, after, bytes)?;
    Ok((Mode::Active { index: 0, offset }, rest))
}

/// The index of a table or memory at the front, and the offset in it.
fn indexed_of<'a>(
    alloc: Global,
    built: &mut Built,
    after: u64,
    bytes: &'a [u8],
) -> Result<(Mode, &'a [u8]), ReadError>
    requires { length built.old.blocks + after + length bytes.now < 2 ^ 32 }
    ensures room { IfOk result (λ x. length built.new.blocks + length x.1.now ≤ length built.old.blocks + length bytes.now) }
    ensures gives { Gives (λ x. ((x.0, built.new), x.1.now)) result (indexed_in built.old after bytes.now) }
{
    let (index, rest) = u32_of(bytes)?;
    let (offset, rest) = expression_of(alloc, false, built, after, rest)?;
    Ok((Mode::Active { index, offset }, rest))
}

/// A function index, which stands for the block of an expression that refers to it.
pub struct FuncIndex;

impl Item for FuncIndex {
    type Value = BlockId;

    ghost reading = { func_ref_in };

    fn read<'a>(
        alloc: Global,
        built: &mut Built,
        _after: u64,
        bytes: &'a [u8],
    ) -> Result<(BlockId, &'a [u8]), ReadError> {
        let (index, rest) = u32_of(bytes)?;
        let mut instrs = Items::new(alloc);
        instrs.push(Instr::RefFunc(index))?;
        let id = ended(alloc, built, instrs)?;
        Ok((id, rest))
    }
}

/// References to functions, by their indices.
fn funcs_of<'a>(
    alloc: Global,
    built: &mut Built,
    after: u64,
    bytes: &'a [u8],
) -> Result<(Refs, &'a [u8]), ReadError>
    requires { length built.old.blocks + after + length bytes.now < 2 ^ 32 }
    ensures room { IfOk result (λ x. length built.new.blocks + length x.1.now ≤ length built.old.blocks + length bytes.now) }
    ensures gives { Gives (λ x. ((x.0, built.new), x.1.now)) result (funcs_in built.old after bytes.now) }
{
    let (items, rest) = vector_of::<FuncIndex>(alloc, built, after, bytes)?;
    Ok(((ValType::FuncRef, items), rest))
}

/// The same behind their kind.
fn kind_of<'a>(
    alloc: Global,
    built: &mut Built,
    after: u64,
    bytes: &'a [u8],
) -> Result<(Refs, &'a [u8]), ReadError>
    requires { length built.old.blocks + after + length bytes.now < 2 ^ 32 }
    ensures room { IfOk result (λ x. length built.new.blocks + length x.1.now ≤ length built.old.blocks + length bytes.now) }
    ensures gives { Gives (λ x. ((x.0, built.new), x.1.now)) result (kind_in built.old after bytes.now) }
{
    match bytes {
        [0x00, rest @ ..] => funcs_of(alloc, built, after, rest),
        _ => Err(ReadError::Malformed),
    }
}

/// References to functions, by expressions.
fn func_exprs_of<'a>(
    alloc: Global,
    built: &mut Built,
    after: u64,
    bytes: &'a [u8],
) -> Result<(Refs, &'a [u8]), ReadError>
    requires { length built.old.blocks + after + length bytes.now < 2 ^ 32 }
    ensures room { IfOk result (λ x. length built.new.blocks + length x.1.now ≤ length built.old.blocks + length bytes.now) }
    ensures gives { Gives (λ x. ((x.0, built.new), x.1.now)) result (func_exprs_in built.old after bytes.now) }
{
    let (items, rest) = vector_of::<BlockId>(alloc, built, after, bytes)?;
    Ok(((ValType::FuncRef, items), rest))
}

/// References of a type, by expressions.
fn exprs_of<'a>(
    alloc: Global,
    built: &mut Built,
    after: u64,
    bytes: &'a [u8],
) -> Result<(Refs, &'a [u8]), ReadError>
    requires { length built.old.blocks + after + length bytes.now < 2 ^ 32 }
    ensures room { IfOk result (λ x. length built.new.blocks + length x.1.now ≤ length built.old.blocks + length bytes.now) }
    ensures gives { Gives (λ x. ((x.0, built.new), x.1.now)) result (exprs_in built.old after bytes.now) }
{
    let (ty, rest) = ref_type_of(bytes)?;
    let (items, rest) = vector_of::<BlockId>(alloc, built, after, rest)?;
    Ok(((ty, items), rest))
}

/// An element segment of its parts.
fn elem(mode: Mode, refs: Refs) -> Elem
    ensures { result ≡ elem_of (mode, refs) }
{
    let (ty, items) = refs;
    Elem { ty, items, mode }
}

impl Item for Elem {
    type Value = Elem;

    ghost reading = { elem_in };

    fn read<'a>(
        alloc: Global,
        built: &mut Built,
        after: u64,
        bytes: &'a [u8],
    ) -> Result<(Elem, &'a [u8]), ReadError> {
        let (flag, rest) = u32_of(bytes)?;
        match flag {
            0 => {
                let (mode, rest) = first_of(alloc, built, after, rest)?;
                let (refs, rest) = funcs_of(alloc, built, after, rest)?;
                Ok((elem(mode, refs), rest))
            }
            1 => {
                let (refs, rest) = kind_of(alloc, built, after, rest)?;
                Ok((elem(Mode::Passive, refs), rest))
            }
            2 => {
                let (mode, rest) = indexed_of(alloc, built, after, rest)?;
                let (refs, rest) = kind_of(alloc, built, after, rest)?;
                Ok((elem(mode, refs), rest))
            }
            3 => {
                let (refs, rest) = kind_of(alloc, built, after, rest)?;
                Ok((elem(Mode::Declared, refs), rest))
            }
            4 => {
                let (mode, rest) = first_of(alloc, built, after, rest)?;
                let (refs, rest) = func_exprs_of(alloc, built, after, rest)?;
                Ok((elem(mode, refs), rest))
            }
            5 => {
                let (refs, rest) = exprs_of(alloc, built, after, rest)?;
                Ok((elem(Mode::Passive, refs), rest))
            }
            6 => {
                let (mode, rest) = indexed_of(alloc, built, after, rest)?;
                let (refs, rest) = exprs_of(alloc, built, after, rest)?;
                Ok((elem(mode, refs), rest))
            }
            7 => {
                let (refs, rest) = exprs_of(alloc, built, after, rest)?;
                Ok((elem(Mode::Declared, refs), rest))
            }
            _ => Err(ReadError::Malformed),
        }
    }
}

/// A data segment with the bytes at the front, which are copied.
fn data_of<'a>(alloc: Global, mode: Mode, bytes: &'a [u8]) -> Result<(Data, &'a [u8]), ReadError>
    ensures shorter { IfOk result (λ x. length x.1.now ≤ length bytes.now) }
    ensures gives { Gives (λ x. (x.0, x.1.now)) result (data_at mode bytes.now) }
{
    let (part, rest) = part_of(bytes)?;
    let bytes = Items::from_slice(alloc, part)?;
    Ok((Data { bytes, mode }, rest))
}

impl Item for Data {
    type Value = Data;

    ghost reading = { data_in };

    fn read<'a>(
        alloc: Global,
        built: &mut Built,
        after: u64,
        bytes: &'a [u8],
    ) -> Result<(Data, &'a [u8]), ReadError> {
        let (kind, rest) = u32_of(bytes)?;
        match kind {
            0 => {
                let (mode, rest) = first_of(alloc, built, after, rest)?;
                data_of(alloc, mode, rest)
            }
            1 => data_of(alloc, Mode::Passive, rest),
            2 => {
                let (mode, rest) = indexed_of(alloc, built, after, rest)?;
                data_of(alloc, mode, rest)
            }
            _ => Err(ReadError::Malformed),
        }
    }
}
