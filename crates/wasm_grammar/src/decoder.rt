//! Modules from bytes (WebAssembly Core 2.0, chapter 5).

ghost use Rattle.std.specs.Prelude.{◌≡◌, true, ◌≤◌, ◌<◌, ◌^◌, ℕ, List, IfOk, IfSome, length, reverse};
ghost use Rattle.wasm_syntax.specs.Numbering.{is_numbered};
ghost use Rattle.wasm_grammar.specs.Decoding.{Decoded, Decodes, told, read_as};
ghost use Rattle.wasm_grammar.specs.Module.{funcs_of, module_with, module_in};

use crate::built::Foreign;
use crate::fault::ReadError;
use crate::functions::CodeEntry;
use crate::held::Parts;
use crate::ordered::module_parts_of;
use sqlite_items::Items;
use std::alloc::{AllocError, Global};
use thiserror::Error;
use wasm_syntax::{Func, Instr, Module};

/// Why bytes give no module.
#[derive(Clone, Copy, PartialEq, Eq, Debug, Drop, Error)]
pub enum DecodeError {
    /// The bytes spell no module of the binary format. Whether a module is valid isn't asked.
    #[error("the bytes spell no module")]
    Malformed,
    /// The bytes spell a module that has a type or an instruction which the profile leaves out. The first one in the file begins
    /// at its byte `place`, counted from 0.
    #[error("a type or instruction outside of the profile at byte {place}")]
    Outside { place: u64, what: Foreign },
    /// Memory ran out.
    #[error("out of memory")]
    NoMemory,
}

/// The items from the last one to the first.
fn reversed<T: Drop>(alloc: Global, items: Items<T>) -> Result<Items<T>, AllocError>
    ensures { IfOk result (λ x. x ≡ reverse items) }
{
    let mut left = items;
    let mut moved = Items::new(alloc);
    while let Some(item) = left.pop() {
        moved.push(item)?;
    }
    Ok(moved)
}

/// Functions from their types and their code entries.
fn joined(alloc: Global, types: &[u32], codes: Items<CodeEntry>) -> Result<Items<Func>, AllocError>
    ensures { IfOk result (λ x. x ≡ funcs_of types.now codes) }
{
    let mut left = reversed(alloc, codes)?;
    let mut funcs = Items::new(alloc);
    for ty in types {
        let Some(CodeEntry { locals, body }) = left.pop() else {
            return Ok(funcs);
        };
        funcs.push(Func {
            ty: *ty,
            locals,
            body,
        })?;
    }
    Ok(funcs)
}

/// The module of these parts and blocks.
fn assembled(alloc: Global, parts: Parts, blocks: Items<Items<Instr>>) -> Result<Module, AllocError>
    ensures { IfOk result (λ m. m ≡ module_with parts blocks) }
{
    let Parts {
        types,
        imports,
        funcs: func_types,
        tables,
        mems,
        globals,
        exports,
        start,
        elems,
        data_count,
        codes,
        datas,
    } = parts;
    let funcs = joined(alloc, func_types.as_slice(), codes)?;
    Ok(Module {
        types,
        imports,
        funcs,
        tables,
        mems,
        globals,
        exports,
        start,
        elems,
        data_count,
        datas,
        blocks,
    })
}

/// What is read of the bytes.
fn decided(alloc: Global, bytes: &[u8]) -> Result<Module, DecodeError>
    requires { length bytes.now < 2 ^ 32 }
    ensures { IfSome (told result) (λ d. d ≡ read_as bytes.now (module_in bytes.now)) }
{
    match module_parts_of(alloc, bytes) {
        Ok((parts, built)) => match built.first {
            Some(leaf) => Err(DecodeError::Outside {
                place: (bytes.len() as u64).saturating_sub(leaf.left),
                what: leaf.what,
            }),
            None => match assembled(alloc, parts, built.blocks) {
                Ok(module) => Ok(module),
                Err(_) => Err(DecodeError::NoMemory),
            },
        },
        Err(ReadError::Malformed) => Err(DecodeError::Malformed),
        Err(ReadError::NoMemory) => Err(DecodeError::NoMemory),
    }
}

/// The module that the bytes spell, where it has nothing that the profile leaves out. It may be invalid: only the format is read.
///
/// The time grows with the number of bytes, and so does the memory: no count in the file takes room before its items have come.
pub fn decode(alloc: Global, bytes: &[u8]) -> Result<Module, DecodeError>
    requires { length bytes.now ≤ 2 ^ 24 }
    // What is answered is so.
    ensures found { IfSome (told result) (Decodes bytes.now) }
    // What is so is answered, unless memory runs out.
    ensures only { (d : Decoded) → Decodes bytes.now d → IfSome (told result) (λ a. a ≡ d) }
    // Its blocks are numbered in the order in which they end.
    ensures numbered { IfOk result (λ m. is_numbered m ≡ true) }
{
    decided(alloc, bytes)
}

/// What a decoder tells of bytes is determined by them, whatever the bytes are.
pub fn decodes_once()
    ensures total { (bytes : List ℕ) → (d : Decoded) × Decodes bytes d }
    ensures once { (bytes : List ℕ) (d e : Decoded) → Decodes bytes d → Decodes bytes e → d ≡ e }
{}
