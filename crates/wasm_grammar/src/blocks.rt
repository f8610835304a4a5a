//! The open blocks of an expression that is read.

ghost use Rattle.std.specs.Prelude.{◌≡◌, ◌≤◌, ◌<◌, ◌+◌, ◌^◌, Some, IfOk, length};
ghost use Rattle.wasm_grammar.specs.Answers.{Gives};
ghost use Rattle.wasm_grammar.specs.Code.{make_block, if_of as if_instr};
ghost use Rattle.wasm_grammar.specs.Running.{state, opens, turns, closes, step};

use crate::built::Built;
use crate::fault::ReadError;
use crate::tokens::Token;
use sqlite_items::{Boxed, Items};
use std::alloc::{AllocError, Global};
use wasm_syntax::{BlockId, BlockType, IfParts, Instr};

/// From more instructions on, a block keeps the room in which it was read.
const LONG: usize = 4096;

/// What an open block is. The second part of an `if` has the number of the first one.
#[derive(Drop)]
pub enum Kind {
    Block(BlockType),
    Loop(BlockType),
    If(BlockType),
    Else(BlockType, BlockId),
}

/// An open block, and the instructions that stand before it.
#[derive(Drop)]
pub struct Level {
    pub kind: Kind,
    pub before: Items<Instr>,
}

/// The instructions of the innermost open block so far, and the open blocks, the innermost one last.
#[derive(Drop)]
pub struct Open {
    pub instrs: Items<Instr>,
    pub levels: Items<Level>,
}

/// The same instructions in no more room than they take: a list that grows has room for four at least, and for twice as many at the
/// most. A long one is left as it is, since its copy takes as much again while both are there.
fn fitted(alloc: Global, instrs: Items<Instr>) -> Result<Items<Instr>, AllocError>
    ensures { IfOk result (λ it. it ≡ instrs) }
{
    if instrs.is_empty() || instrs.len() > LONG {
        return Ok(instrs);
    }
    let room = Vec::with_capacity(alloc, instrs.len())?;
    let mut fitting = Items::from_vec(room);
    fitting.append(instrs)?;
    Ok(fitting)
}

/// The `if` with these parts.
fn if_of(alloc: Global, ty: BlockType, body: BlockId, other: BlockId) -> Result<Instr, AllocError>
    ensures { IfOk result (λ it. it ≡ if_instr ty body other) }
{
    let parts = Boxed::new(alloc, IfParts { ty, body, other })?;
    Ok(Instr::If(parts))
}

/// A block has ended, and has its number: that of the blocks that ended before it.
pub fn ended(alloc: Global, built: &mut Built, instrs: Items<Instr>) -> Result<BlockId, ReadError>
    requires { length built.old.blocks < 2 ^ 32 }
    ensures room { IfOk result (λ id. length built.new.blocks ≡ length built.old.blocks + 1) }
    ensures gives { Gives (λ id. (id, built.new)) result (Some (make_block instrs built.old)) }
{
    let count = built.blocks.len();
    let block = fitted(alloc, instrs)?;
    built.blocks.push(block)?;
    Ok(BlockId(count as u32))
}

/// A block opens.
fn opened(alloc: Global, built: &mut Built, so_far: Open, kind: Kind) -> Result<Open, ReadError>
    ensures room { IfOk result (λ x. length built.new.blocks + length x.levels ≡ length built.old.blocks + length so_far.levels + 1) }
    ensures gives { Gives (λ x. state x built.new) result (Some (opens kind (state so_far built.old))) }
{
    let Open { instrs, mut levels } = so_far;
    levels.push(Level {
        kind,
        before: instrs,
    })?;
    Ok(Open {
        instrs: Items::new(alloc),
        levels,
    })
}

/// The first part of an `if` ends, and the second begins.
fn turned(alloc: Global, built: &mut Built, so_far: Open) -> Result<Open, ReadError>
    requires { length built.old.blocks < 2 ^ 32 }
    ensures room { IfOk result (λ x. length built.new.blocks + length x.levels ≤ length built.old.blocks + length so_far.levels + 1) }
    ensures gives { Gives (λ x. state x built.new) result (turns (state so_far built.old).levels so_far.instrs built.old) }
{
    let Open { instrs, mut levels } = so_far;
    match levels.pop() {
        None => Err(ReadError::Malformed),
        Some(Level { kind, before }) => match kind {
            Kind::If(block_type) => {
                let one = ended(alloc, built, instrs)?;
                levels.push(Level {
                    kind: Kind::Else(block_type, one),
                    before,
                })?;
                Ok(Open {
                    instrs: Items::new(alloc),
                    levels,
                })
            }
            _ => Err(ReadError::Malformed),
        },
    }
}

/// The innermost block ends, and its instruction stands behind those before it.
fn closed(alloc: Global, built: &mut Built, so_far: Open) -> Result<Open, ReadError>
    requires { length built.old.blocks + 1 < 2 ^ 32 }
    ensures room { IfOk result (λ x. length built.new.blocks + length x.levels ≤ length built.old.blocks + length so_far.levels + 1) }
    ensures gives { Gives (λ x. state x built.new) result (closes (state so_far built.old).levels so_far.instrs built.old) }
{
    let Open { instrs, mut levels } = so_far;
    let Some(Level { kind, mut before }) = levels.pop() else {
        return Err(ReadError::Malformed);
    };
    let id = ended(alloc, built, instrs)?;
    match kind {
        Kind::Block(block_type) => before.push(Instr::Block(block_type, id))?,
        Kind::Loop(block_type) => before.push(Instr::Loop(block_type, id))?,
        Kind::If(block_type) => {
            let two = ended(alloc, built, Items::new(alloc))?;
            before.push(if_of(alloc, block_type, id, two)?)?;
        }
        Kind::Else(block_type, one) => before.push(if_of(alloc, block_type, one, id)?)?,
    }
    Ok(Open {
        instrs: before,
        levels,
    })
}

/// A token is taken up.
pub fn taken(
    alloc: Global,
    built: &mut Built,
    so_far: Open,
    token: Token,
) -> Result<Open, ReadError>
    requires { length built.old.blocks + 1 < 2 ^ 32 }
    ensures room { IfOk result (λ x. length built.new.blocks + length x.levels ≤ length built.old.blocks + length so_far.levels + 1) }
    ensures gives { Gives (λ x. state x built.new) result (step (state so_far built.old) token) }
{
    match token {
        Token::Plain(instr) => {
            let Open { mut instrs, levels } = so_far;
            instrs.push(instr)?;
            Ok(Open { instrs, levels })
        }
        Token::Foreign => Ok(so_far),
        Token::Block(block_type) => opened(alloc, built, so_far, Kind::Block(block_type)),
        Token::Loop(block_type) => opened(alloc, built, so_far, Kind::Loop(block_type)),
        Token::If(block_type) => opened(alloc, built, so_far, Kind::If(block_type)),
        Token::Else => turned(alloc, built, so_far),
        Token::End => closed(alloc, built, so_far),
    }
}
