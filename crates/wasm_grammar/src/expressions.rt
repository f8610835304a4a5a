//! Expressions and bodies (WebAssembly Core 2.0, sections 5.4.9 and 5.5.13), read with a list of open blocks. Nothing nests in the
//! reader, so blocks may nest as deep as the bytes allow.

ghost use Rattle.std.specs.Prelude.{◌≡◌, ◌≤◌, ◌<◌, ◌+◌, ◌^◌, ◌&&◌, [], IfOk, length, reverse};
ghost use Rattle.wasm_grammar.specs.Answers.{Gives};
ghost use Rattle.wasm_grammar.specs.Running.{state, start, is_last, begins_simd, cut_at, run, expression_in, body_in};

use crate::blocks::{Open, ended, taken};
use crate::built::{Built, Foreign, Leaf, note};
use crate::fault::ReadError;
use crate::tokens::{Token, token_of};
use sqlite_items::Items;
use std::alloc::Global;
use wasm_syntax::BlockId;

/// Whether a token ends an expression.
fn ends_all(so_far: &Open, token: &Token) -> bool
    ensures { result ≡ is_last (reverse so_far.now.levels) token.now }
{
    match token {
        Token::End => so_far.levels.is_empty(),
        _ => false,
    }
}

/// Whether a foreign leaf stands here that takes the rest of a code entry.
fn ends_entry(in_code: bool, bytes: &[u8]) -> bool
    ensures { result ≡ (in_code && begins_simd bytes.now) }
{
    match bytes {
        [0xFD, ..] => in_code,
        _ => false,
    }
}

/// What stands behind all of the bytes.
fn end_of(bytes: &[u8]) -> &[u8]
    ensures { result.now ≡ [] }
{
    let (_, rest) = bytes.split_at(bytes.len());
    rest
}

/// A foreign leaf ends all open blocks.
fn cut(alloc: Global, built: &mut Built, left: u64) -> Open
    ensures ends { length built.new.blocks ≡ 0 }
    ensures gives { state result built.new ≡ cut_at left built.old }
{
    built.blocks = Items::new(alloc);
    note(
        built,
        Leaf {
            left,
            what: Foreign::Simd,
        },
    );
    Open {
        instrs: Items::new(alloc),
        levels: Items::new(alloc),
    }
}

/// Tokens to the end of the expression at the front, and what stands behind it.
fn run_of<'a>(
    alloc: Global,
    in_code: bool,
    built: &mut Built,
    after: u64,
    bytes: &'a [u8],
) -> Result<(Open, &'a [u8]), ReadError>
    requires { length built.old.blocks + after + length bytes.now < 2 ^ 32 }
    ensures room { IfOk result (λ x. length built.new.blocks + length x.1.now < length built.old.blocks + length bytes.now) }
    ensures gives { Gives (λ x. (state x.0 built.new, x.1.now)) result (run in_code (length bytes.now) (start built.old) after bytes.now) }
{
    let mut so_far = Open {
        instrs: Items::new(alloc),
        levels: Items::new(alloc),
    };
    let mut rest = bytes;
    for _ in 0..bytes.len() {
        if ends_entry(in_code, rest) {
            let at_leaf = cut(alloc, built, after + rest.len() as u64);
            return Ok((at_leaf, end_of(rest)));
        }
        let (token, next) = token_of(alloc, in_code, built, after, rest)?;
        rest = next;
        if ends_all(&so_far, &token) {
            return Ok((so_far, rest));
        }
        so_far = taken(alloc, built, so_far, token)?;
    }
    Err(ReadError::Malformed)
}

/// The block of the expression at the front, and what stands behind it.
#[tactic(auto, unfolding(crate::specs::Running::expression_in))]
pub fn expression_of<'a>(
    alloc: Global,
    in_code: bool,
    built: &mut Built,
    after: u64,
    bytes: &'a [u8],
) -> Result<(BlockId, &'a [u8]), ReadError>
    requires { length built.old.blocks + after + length bytes.now < 2 ^ 32 }
    ensures room { IfOk result (λ x. length built.new.blocks + length x.1.now ≤ length built.old.blocks + length bytes.now) }
    ensures gives { Gives (λ x. ((x.0, built.new), x.1.now)) result (expression_in in_code built.old after bytes.now) }
{
    let (so_far, rest) = run_of(alloc, in_code, built, after, bytes)?;
    let id = ended(alloc, built, so_far.instrs)?;
    Ok((id, rest))
}

/// The block of the body that these bytes spell, all of them.
pub fn body_of(
    alloc: Global,
    built: &mut Built,
    after: u64,
    bytes: &[u8],
) -> Result<BlockId, ReadError>
    requires { length built.old.blocks + after + length bytes.now < 2 ^ 32 }
    ensures room { IfOk result (λ x. length built.new.blocks ≤ length built.old.blocks + length bytes.now) }
    ensures gives { Gives (λ x. (x, built.new)) result (body_in built.old after bytes.now) }
{
    let (id, rest) = expression_of(alloc, true, built, after, bytes)?;
    if !rest.is_empty() {
        return Err(ReadError::Malformed);
    }
    Ok(id)
}
