//! From a script's bytes to its tree.

ghost use Rattle.std.specs.Prelude.{◌≡◌, ◌≤◌, IfOk, length};
ghost use Rattle.host_lexer.specs.Tokens as lexed;
ghost use Rattle.host_lexer.specs.Tokens.{InOrder};
ghost use Rattle.host_reading.specs.Reads.{Answers, Reads, ReadsText, most_script_bytes};
ghost use Rattle.host_reading.specs.declared.reading.Read.TheVariants.{Refused};
ghost use Rattle.host_reading.specs.declared.refusal.Refusal.TheVariants as reasons;

use crate::refusal::Refusal;
use embed_base::PlainString;
use host_lexer::{LexError, Token, tokens};
use host_parser::{ParseError, Script, parse};
use std::alloc::{AllocError, Global};
use std::str;

/// What a script's bytes are read as.
#[derive(Debug, Drop)]
pub enum Read {
    /// The script's tree.
    Script(Script),
    /// Why there is none.
    Refused(Refusal),
}

// The refusal of a name that is declared again.
fn declared_twice(alloc: Global, name: &str, place: u32) -> Result<Read, AllocError>
    ensures { IfOk result (λ answer. answer ≡ Refused (reasons.DeclaredTwice name.now place)) }
{
    Ok(Read::Refused(Refusal::DeclaredTwice {
        name: PlainString::from_str(alloc, name)?,
        place,
    }))
}

// What the tokens of a text of this length are read as.
fn read_tokens(alloc: Global, found: &[Token], len: u32) -> Result<Read, AllocError>
    requires { InOrder 0 len found.now }
    ensures told { IfOk result (λ answer. Answers (lexed.tokens found.now) len answer) }
    ensures only { (answer : Read) → Answers (lexed.tokens found.now) len answer → IfOk result (λ told. told ≡ answer) }
{
    match parse(alloc, found, len) {
        Ok(script) => Ok(Read::Script(script)),
        Err(ParseError::Unexpected(place)) => Ok(Read::Refused(Refusal::Unexpected(place))),
        Err(ParseError::TooDeep(place)) => Ok(Read::Refused(Refusal::TooDeep(place))),
        Err(ParseError::Early { place, name }) => declared_twice(alloc, name.as_str(), place),
        Err(ParseError::NoMemory) => Err(AllocError),
    }
}

// What a text is read as.
fn read_text(alloc: Global, text: &str) -> Result<Read, AllocError>
    requires { length text.now ≤ most_script_bytes }
    ensures told { IfOk result (λ answer. ReadsText text.now answer) }
    ensures only { (answer : Read) → ReadsText text.now answer → IfOk result (λ told. told ≡ answer) }
{
    match tokens(alloc, text) {
        Ok(found) => read_tokens(alloc, found.as_slice(), text.len() as u32),
        Err(LexError::BadToken(place)) => Ok(Read::Refused(Refusal::BadToken(place))),
        Err(LexError::NumberOutside(place)) => Ok(Read::Refused(Refusal::NumberOutside(place))),
        Err(LexError::NoMemory) => Err(AllocError),
    }
}

/// The tree of the script that the bytes are, or why they are none. They are decoded as UTF-8 first, then the text is split into tokens,
/// then these are parsed, and last names are sought that a scope declares twice: what refuses them first is told.
pub fn read_script(alloc: Global, bytes: &[u8]) -> Result<Read, AllocError>
    requires { length bytes.now ≤ most_script_bytes }

    // What is answered is what the bytes are read as.
    ensures told { IfOk result (λ answer. Reads bytes.now answer) }

    // What the bytes are read as is answered, unless memory runs out.
    ensures only { (answer : Read) → Reads bytes.now answer → IfOk result (λ told. told ≡ answer) }
{
    match str::from_utf8(bytes) {
        Ok(text) => read_text(alloc, text),
        Err(error) => Ok(Read::Refused(Refusal::NotUtf8(error.valid_up_to() as u64))),
    }
}
