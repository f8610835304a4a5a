//! What an expression is spelled by, token by token (WebAssembly Core 2.0, section 5.4).

ghost use Rattle.std.specs.Prelude.{◌≡◌, ◌≤◌, ◌<◌, ◌+◌, ◌^◌, ℕ, Bool, IfOk, length, take, drop};
ghost use Rattle.wasm_grammar.specs.Answers.{Gives};
ghost use Rattle.wasm_grammar.specs.declared.built.Built.{Built as BuiltValue};
ghost use Rattle.wasm_grammar.specs.Reading.{run_at};
ghost use Rattle.wasm_grammar.specs.Opcodes as table;
ghost use Rattle.wasm_grammar.specs.Rows as says;
ghost use Rattle.wasm_grammar.specs.declared.opcodes.Row.TheVariants as r;
ghost use Rattle.wasm_grammar.specs.Instructions.{block_type_in, mem_arg_at, vector_constant_at, zero_in, with_data, shaped_in, prefixed_in, vector_constant_in, token_in};

use crate::built::{Built, Foreign, Leaf, note};
use crate::fault::ReadError;
use crate::numbers::{s32_of, s64_of, type_index_of, u32_of};
use crate::opcodes::{
    Access, Index, Opening, Pair, Row, Zero, access_instr, bulk_row_of, index_instr, pair_instr,
    plain_instr, row_of, zero_instr,
};
use crate::types::{ref_type_of, val_type_of};
use crate::vectors::vector_of;
use sqlite_items::Boxed;
use std::alloc::Global;
use wasm_syntax::{BlockType, Instr, MemArg, ValType};

/// An instruction, or where a block begins, goes on with its second part, or ends.
#[derive(Drop)]
pub enum Token {
    Plain(Instr),
    /// A foreign instruction, which was noted.
    Foreign,
    Block(BlockType),
    Loop(BlockType),
    If(BlockType),
    Else,
    End,
}

/// The block type at the front.
#[tactic(auto, unfolding(crate::specs::Instructions::block_type_in))]
fn block_type_of<'a>(
    built: &mut Built,
    after: u64,
    bytes: &'a [u8],
) -> Result<(BlockType, &'a [u8]), ReadError>
    requires { length built.old.blocks + after + length bytes.now < 2 ^ 32 }
    ensures room { IfOk result (λ x. length built.new.blocks + length x.1.now ≤ length built.old.blocks + length bytes.now) }
    ensures gives { Gives (λ x. ((x.0, built.new), x.1.now)) result (block_type_in built.old after bytes.now) }
{
    match bytes {
        [] => Err(ReadError::Malformed),
        [0x40, rest @ ..] => Ok((BlockType::Empty, rest)),
        [0x41..=0x7F, ..] => {
            let (val, rest) = val_type_of(built, after, bytes)?;
            Ok((BlockType::One(val), rest))
        }
        _ => {
            let (index, rest) = type_index_of(bytes)?;
            Ok((BlockType::Index(index), rest))
        }
    }
}

/// The place of an access at the front: its alignment and its offset.
fn mem_arg_of(bytes: &[u8]) -> Result<(MemArg, &[u8]), ReadError>
    ensures shorter { IfOk result (λ x. length x.1.now ≤ length bytes.now) }
    ensures gives { Gives (λ x. (x.0, x.1.now)) result (mem_arg_at bytes.now) }
{
    let (align, rest) = u32_of(bytes)?;
    let (offset, rest) = u32_of(rest)?;
    Ok((MemArg { align, offset }, rest))
}

/// What stands behind so many bytes.
fn behind_run(bytes: &[u8], count: usize) -> Result<&[u8], ReadError>
    ensures shorter { IfOk result (λ rest. length rest.now ≤ length bytes.now) }
    ensures gives { Gives (λ rest. (take count bytes.now, rest.now)) result (run_at count bytes.now) }
{
    if bytes.len() < count {
        return Err(ReadError::Malformed);
    }
    Ok(&bytes[count..])
}

/// What stands behind a byte 00.
fn behind_zero(bytes: &[u8]) -> Result<&[u8], ReadError>
    ensures shorter { IfOk result (λ rest. length rest.now ≤ length bytes.now) }
    ensures gives { (s : BuiltValue) (after : ℕ) → Gives (λ rest. ((tt, s), rest.now)) result (zero_in s after bytes.now) }
{
    match bytes {
        [0x00, rest @ ..] => Ok(rest),
        _ => Err(ReadError::Malformed),
    }
}

/// What stands behind the byte 0C and 16 more.
fn behind_vector_constant(bytes: &[u8]) -> Result<&[u8], ReadError>
    ensures shorter { IfOk result (λ rest. length rest.now ≤ length bytes.now) }
    ensures gives { Gives (λ rest. (take 16 (drop 1 bytes.now), rest.now)) result (vector_constant_at bytes.now) }
{
    match bytes {
        [0x0C, rest @ ..] => behind_run(rest, 16),
        _ => Err(ReadError::Malformed),
    }
}

/// Notes that a data segment is named, where this is in the code of a function.
fn note_data(in_code: bool, built: &mut Built)
    ensures noted { built.new ≡ with_data in_code built.old }
    ensures kept { length built.new.blocks ≡ length built.old.blocks }
{
    if in_code {
        built.data_used = true;
    }
}

/// The token of an instruction with an index.
#[tactic(auto, unfolding(crate::specs::Instructions::shaped_in))]
fn index_of(what: Index, bytes: &[u8]) -> Result<(Token, &[u8]), ReadError>
    ensures shorter { IfOk result (λ x. length x.1.now ≤ length bytes.now) }
    ensures gives { (in_code : Bool) (s : BuiltValue) (after : ℕ) → Gives (λ x. ((x.0, s), x.1.now)) result (shaped_in in_code (table.one_index (says.index_instr what)) s after bytes.now) }
{
    let (index, rest) = u32_of(bytes)?;
    Ok((Token::Plain(index_instr(what, index)), rest))
}

/// The token of an instruction with two indices.
#[tactic(auto, unfolding(crate::specs::Instructions::shaped_in))]
fn pair_of(what: Pair, bytes: &[u8]) -> Result<(Token, &[u8]), ReadError>
    ensures shorter { IfOk result (λ x. length x.1.now ≤ length bytes.now) }
    ensures gives { (in_code : Bool) (s : BuiltValue) (after : ℕ) → Gives (λ x. ((x.0, s), x.1.now)) result (shaped_in in_code (table.indices (says.pair_instr what)) s after bytes.now) }
{
    let (first, rest) = u32_of(bytes)?;
    let (second, rest) = u32_of(rest)?;
    Ok((Token::Plain(pair_instr(what, first, second)), rest))
}

/// The token of an access of a memory.
#[tactic(auto, unfolding(crate::specs::Instructions::shaped_in))]
fn access_of(what: Access, bytes: &[u8]) -> Result<(Token, &[u8]), ReadError>
    ensures shorter { IfOk result (λ x. length x.1.now ≤ length bytes.now) }
    ensures gives { (in_code : Bool) (s : BuiltValue) (after : ℕ) → Gives (λ x. ((x.0, s), x.1.now)) result (shaped_in in_code (table.access (says.access_instr what)) s after bytes.now) }
{
    let (arg, rest) = mem_arg_of(bytes)?;
    Ok((Token::Plain(access_instr(what, arg)), rest))
}

/// The token of an instruction with one byte 00.
#[tactic(auto, unfolding(crate::specs::Instructions::shaped_in))]
fn zero_of(what: Zero, bytes: &[u8]) -> Result<(Token, &[u8]), ReadError>
    ensures shorter { IfOk result (λ x. length x.1.now ≤ length bytes.now) }
    ensures gives { (in_code : Bool) (s : BuiltValue) (after : ℕ) → Gives (λ x. ((x.0, s), x.1.now)) result (shaped_in in_code (table.zero (says.zero_instr what)) s after bytes.now) }
{
    let rest = behind_zero(bytes)?;
    Ok((Token::Plain(zero_instr(what)), rest))
}

/// The token of a copy in a memory.
#[tactic(auto, unfolding(crate::specs::Instructions::shaped_in))]
fn memory_copy_of(bytes: &[u8]) -> Result<(Token, &[u8]), ReadError>
    ensures shorter { IfOk result (λ x. length x.1.now ≤ length bytes.now) }
    ensures gives { (in_code : Bool) (s : BuiltValue) (after : ℕ) → Gives (λ x. ((x.0, s), x.1.now)) result (shaped_in in_code (says.shape r.MemoryCopy) s after bytes.now) }
{
    let rest = behind_zero(bytes)?;
    let rest = behind_zero(rest)?;
    Ok((Token::Plain(Instr::MemoryCopy), rest))
}

/// The token of a constant of 32 bits.
#[tactic(auto, unfolding(crate::specs::Instructions::shaped_in))]
fn i32_const_of(bytes: &[u8]) -> Result<(Token, &[u8]), ReadError>
    ensures shorter { IfOk result (λ x. length x.1.now ≤ length bytes.now) }
    ensures gives { (in_code : Bool) (s : BuiltValue) (after : ℕ) → Gives (λ x. ((x.0, s), x.1.now)) result (shaped_in in_code (says.shape r.I32Const) s after bytes.now) }
{
    let (value, rest) = s32_of(bytes)?;
    Ok((Token::Plain(Instr::I32Const(value)), rest))
}

/// The token of a constant of 64 bits.
#[tactic(auto, unfolding(crate::specs::Instructions::shaped_in))]
fn i64_const_of(bytes: &[u8]) -> Result<(Token, &[u8]), ReadError>
    ensures shorter { IfOk result (λ x. length x.1.now ≤ length bytes.now) }
    ensures gives { (in_code : Bool) (s : BuiltValue) (after : ℕ) → Gives (λ x. ((x.0, s), x.1.now)) result (shaped_in in_code (says.shape r.I64Const) s after bytes.now) }
{
    let (value, rest) = s64_of(bytes)?;
    Ok((Token::Plain(Instr::I64Const(value)), rest))
}

/// The token of a null reference.
#[tactic(auto, unfolding(crate::specs::Instructions::shaped_in))]
fn ref_null_of(bytes: &[u8]) -> Result<(Token, &[u8]), ReadError>
    ensures shorter { IfOk result (λ x. length x.1.now ≤ length bytes.now) }
    ensures gives { (in_code : Bool) (s : BuiltValue) (after : ℕ) → Gives (λ x. ((x.0, s), x.1.now)) result (shaped_in in_code (says.shape r.RefNull) s after bytes.now) }
{
    let (ty, rest) = ref_type_of(bytes)?;
    Ok((Token::Plain(Instr::RefNull(ty)), rest))
}

/// The token of a place where a block begins.
#[tactic(auto, unfolding(crate::specs::Instructions::shaped_in))]
fn opening_of<'a>(
    what: Opening,
    built: &mut Built,
    after: u64,
    bytes: &'a [u8],
) -> Result<(Token, &'a [u8]), ReadError>
    requires { length built.old.blocks + after + length bytes.now < 2 ^ 32 }
    ensures room { IfOk result (λ x. length built.new.blocks + length x.1.now ≤ length built.old.blocks + length bytes.now) }
    ensures gives { (in_code : Bool) → Gives (λ x. ((x.0, built.new), x.1.now)) result (shaped_in in_code (says.opening_shape what) built.old after bytes.now) }
{
    let (block_type, rest) = block_type_of(built, after, bytes)?;
    match what {
        Opening::Block => Ok((Token::Block(block_type), rest)),
        Opening::Loop => Ok((Token::Loop(block_type), rest)),
        Opening::If => Ok((Token::If(block_type), rest)),
    }
}

/// The token of a branch by a table of labels.
#[tactic(auto, unfolding(crate::specs::Instructions::shaped_in))]
fn br_table_of<'a>(
    alloc: Global,
    built: &mut Built,
    after: u64,
    bytes: &'a [u8],
) -> Result<(Token, &'a [u8]), ReadError>
    requires { length built.old.blocks + after + length bytes.now < 2 ^ 32 }
    ensures room { IfOk result (λ x. length built.new.blocks + length x.1.now ≤ length built.old.blocks + length bytes.now) }
    ensures gives { (in_code : Bool) → Gives (λ x. ((x.0, built.new), x.1.now)) result (shaped_in in_code (says.shape r.BrTable) built.old after bytes.now) }
{
    let (labels, rest) = vector_of::<u32>(alloc, built, after, bytes)?;
    let (default, rest) = u32_of(rest)?;
    let labels = Boxed::new(alloc, labels)?;
    Ok((Token::Plain(Instr::BrTable { default, labels }), rest))
}

/// The token of a selection with its result types.
#[tactic(auto, unfolding(crate::specs::Instructions::shaped_in))]
fn select_of<'a>(
    alloc: Global,
    built: &mut Built,
    after: u64,
    bytes: &'a [u8],
) -> Result<(Token, &'a [u8]), ReadError>
    requires { length built.old.blocks + after + length bytes.now < 2 ^ 32 }
    ensures room { IfOk result (λ x. length built.new.blocks + length x.1.now ≤ length built.old.blocks + length bytes.now) }
    ensures gives { (in_code : Bool) → Gives (λ x. ((x.0, built.new), x.1.now)) result (shaped_in in_code (says.shape r.SelectTyped) built.old after bytes.now) }
{
    let (types, rest) = vector_of::<ValType>(alloc, built, after, bytes)?;
    let types = Boxed::new(alloc, types)?;
    Ok((Token::Plain(Instr::SelectTyped(types)), rest))
}

/// The token of a copy of a data segment into a memory.
#[tactic(auto, unfolding(crate::specs::Instructions::shaped_in))]
fn memory_init_of<'a>(
    in_code: bool,
    built: &mut Built,
    bytes: &'a [u8],
) -> Result<(Token, &'a [u8]), ReadError>
    ensures room { IfOk result (λ x. length built.new.blocks + length x.1.now ≤ length built.old.blocks + length bytes.now) }
    ensures gives { (after : ℕ) → Gives (λ x. ((x.0, built.new), x.1.now)) result (shaped_in in_code (says.shape r.MemoryInit) built.old after bytes.now) }
{
    let (index, rest) = u32_of(bytes)?;
    let rest = behind_zero(rest)?;
    note_data(in_code, built);
    Ok((Token::Plain(Instr::MemoryInit(index)), rest))
}

/// The token of a data segment that is let go.
#[tactic(auto, unfolding(crate::specs::Instructions::shaped_in))]
fn data_drop_of<'a>(
    in_code: bool,
    built: &mut Built,
    bytes: &'a [u8],
) -> Result<(Token, &'a [u8]), ReadError>
    ensures room { IfOk result (λ x. length built.new.blocks + length x.1.now ≤ length built.old.blocks + length bytes.now) }
    ensures gives { (after : ℕ) → Gives (λ x. ((x.0, built.new), x.1.now)) result (shaped_in in_code (says.shape r.DataDrop) built.old after bytes.now) }
{
    let (index, rest) = u32_of(bytes)?;
    note_data(in_code, built);
    Ok((Token::Plain(Instr::DataDrop(index)), rest))
}

/// The token of a floating instruction with so many bytes behind its opcode.
#[tactic(auto, unfolding(crate::specs::Instructions::shaped_in))]
fn float_of<'a>(
    count: usize,
    built: &mut Built,
    after: u64,
    bytes: &'a [u8],
) -> Result<(Token, &'a [u8]), ReadError>
    requires { length built.old.blocks + after + length bytes.now + 1 < 2 ^ 32 }
    ensures room { IfOk result (λ x. length built.new.blocks + length x.1.now ≤ length built.old.blocks + length bytes.now) }
    ensures gives { (in_code : Bool) → Gives (λ x. ((x.0, built.new), x.1.now)) result (shaped_in in_code (table.float_bytes count) built.old after bytes.now) }
{
    let left = after + bytes.len() as u64 + 1;
    let rest = behind_run(bytes, count)?;
    let what = Foreign::Float;
    note(built, Leaf { left, what });
    Ok((Token::Foreign, rest))
}

/// The token of an access that moves a floating number.
#[tactic(auto, unfolding(crate::specs::Instructions::shaped_in))]
fn float_access_of<'a>(
    built: &mut Built,
    after: u64,
    bytes: &'a [u8],
) -> Result<(Token, &'a [u8]), ReadError>
    requires { length built.old.blocks + after + length bytes.now + 1 < 2 ^ 32 }
    ensures room { IfOk result (λ x. length built.new.blocks + length x.1.now ≤ length built.old.blocks + length bytes.now) }
    ensures gives { (in_code : Bool) → Gives (λ x. ((x.0, built.new), x.1.now)) result (shaped_in in_code table.float_access built.old after bytes.now) }
{
    let left = after + bytes.len() as u64 + 1;
    let (_, rest) = mem_arg_of(bytes)?;
    let what = Foreign::Float;
    note(built, Leaf { left, what });
    Ok((Token::Foreign, rest))
}

/// The token of a row, whose opcode was read.
#[inline(always)]
#[tactic(auto, unfolding(crate::specs::Instructions::shaped_in))]
fn token_of_row<'a>(
    alloc: Global,
    in_code: bool,
    row: Row,
    built: &mut Built,
    after: u64,
    bytes: &'a [u8],
) -> Result<(Token, &'a [u8]), ReadError>
    requires { length built.old.blocks + after + length bytes.now + 1 < 2 ^ 32 }
    ensures room { IfOk result (λ x. length built.new.blocks + length x.1.now ≤ length built.old.blocks + length bytes.now) }
    ensures gives { Gives (λ x. ((x.0, built.new), x.1.now)) result (shaped_in in_code (says.shape row) built.old after bytes.now) }
{
    match row {
        Row::Unknown => Err(ReadError::Malformed),
        Row::Plain(what) => Ok((Token::Plain(plain_instr(what)), bytes)),
        Row::Index(what) => index_of(what, bytes),
        Row::Pair(what) => pair_of(what, bytes),
        Row::Access(what) => access_of(what, bytes),
        Row::Zero(what) => zero_of(what, bytes),
        Row::Opening(what) => opening_of(what, built, after, bytes),
        Row::Else => Ok((Token::Else, bytes)),
        Row::End => Ok((Token::End, bytes)),
        Row::BrTable => br_table_of(alloc, built, after, bytes),
        Row::SelectTyped => select_of(alloc, built, after, bytes),
        Row::I32Const => i32_const_of(bytes),
        Row::I64Const => i64_const_of(bytes),
        Row::RefNull => ref_null_of(bytes),
        Row::MemoryInit => memory_init_of(in_code, built, bytes),
        Row::DataDrop => data_drop_of(in_code, built, bytes),
        Row::MemoryCopy => memory_copy_of(bytes),
        Row::Float(count) => float_of(count as usize, built, after, bytes),
        Row::FloatAccess => float_access_of(built, after, bytes),
    }
}

/// The token whose opcode is FC, which was read, and a number.
#[tactic(auto, unfolding(crate::specs::Instructions::shaped_in, crate::specs::Opcodes::prefixed_shape))]
fn prefixed_of<'a>(
    alloc: Global,
    in_code: bool,
    built: &mut Built,
    after: u64,
    bytes: &'a [u8],
) -> Result<(Token, &'a [u8]), ReadError>
    requires { length built.old.blocks + after + length bytes.now + 1 < 2 ^ 32 }
    ensures room { IfOk result (λ x. length built.new.blocks + length x.1.now ≤ length built.old.blocks + length bytes.now) }
    ensures gives { Gives (λ x. ((x.0, built.new), x.1.now)) result (prefixed_in in_code built.old after bytes.now) }
{
    let left = after + bytes.len() as u64 + 1;
    let (number, rest) = u32_of(bytes)?;
    if number < 8 {
        let what = Foreign::Float;
        note(built, Leaf { left, what });
        return Ok((Token::Foreign, rest));
    }
    token_of_row(alloc, in_code, bulk_row_of(number), built, after, rest)
}

/// The token of a constant vector, of whose opcode the byte FD was read.
fn vector_constant_of<'a>(
    built: &mut Built,
    after: u64,
    bytes: &'a [u8],
) -> Result<(Token, &'a [u8]), ReadError>
    requires { length built.old.blocks + after + length bytes.now + 1 < 2 ^ 32 }
    ensures room { IfOk result (λ x. length built.new.blocks + length x.1.now ≤ length built.old.blocks + length bytes.now) }
    ensures gives { (in_code : Bool) → Gives (λ x. ((x.0, built.new), x.1.now)) result (vector_constant_in in_code built.old after bytes.now) }
{
    let left = after + bytes.len() as u64 + 1;
    let rest = behind_vector_constant(bytes)?;
    let what = Foreign::Simd;
    note(built, Leaf { left, what });
    Ok((Token::Foreign, rest))
}

/// The token at the front, in the code of a function or elsewhere.
pub fn token_of<'a>(
    alloc: Global,
    in_code: bool,
    built: &mut Built,
    after: u64,
    bytes: &'a [u8],
) -> Result<(Token, &'a [u8]), ReadError>
    requires { length built.old.blocks + after + length bytes.now < 2 ^ 32 }
    ensures room { IfOk result (λ x. length built.new.blocks + length x.1.now < length built.old.blocks + length bytes.now) }
    ensures gives { Gives (λ x. ((x.0, built.new), x.1.now)) result (token_in in_code built.old after bytes.now) }
{
    let [op, rest @ ..] = bytes else {
        return Err(ReadError::Malformed);
    };
    if *op == 0xFC {
        return prefixed_of(alloc, in_code, built, after, rest);
    }
    if *op == 0xFD && !in_code {
        return vector_constant_of(built, after, rest);
    }
    token_of_row(alloc, in_code, row_of(*op), built, after, rest)
}
