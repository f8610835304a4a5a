//! Sections in their order, and what they hold together (WebAssembly Core 2.0, section 5.5.16).

ghost use Rattle.std.specs.Prelude.{◌≡◌, ◌≤◌, ◌<◌, ◌+◌, ◌^◌, IfOk, length};
ghost use Rattle.wasm_grammar.specs.Answers.{Gives};
ghost use Rattle.wasm_grammar.specs.Sections.{section_in, may_follow, last_of, all_in};
ghost use Rattle.wasm_grammar.specs.Module.{no_parts, held_of, agrees, preamble, behind, module_in};

use crate::built::Built;
use crate::contents::section_of;
use crate::fault::ReadError;
use crate::held::{Parts, nothing_held, place_of, with_held};
use sqlite_items::Items;
use std::alloc::Global;

/// Whether a section of this place may stand behind those up to the last one.
fn follows(last: u8, place: u8) -> bool
    ensures { result ≡ may_follow last place }
{
    place == 0 || last < place
}

/// Which section is the last one behind a section of this place.
fn last_behind(last: u8, place: u8) -> u8
    ensures { result ≡ last_of last place }
{
    if place == 0 { last } else { place }
}

/// What the sections hold, which go to the end of the bytes.
fn sections_of(alloc: Global, built: &mut Built, bytes: &[u8]) -> Result<Parts, ReadError>
    requires { length built.old.blocks + length bytes.now < 2 ^ 32 }
    ensures { Gives (λ x. (x, built.new)) result (held_of no_parts 0 (all_in section_in (length bytes.now) built.old 0 bytes.now)) }
{
    let mut parts = nothing_held(alloc);
    let mut last = 0;
    let mut rest = bytes;
    for _ in 0..bytes.len() {
        if rest.is_empty() {
            return Ok(parts);
        }
        let (held, next) = section_of(alloc, built, 0, rest)?;
        let place = place_of(&held);
        if !follows(last, place) {
            return Err(ReadError::Malformed);
        }
        last = last_behind(last, place);
        parts = with_held(parts, held);
        rest = next;
    }
    if !rest.is_empty() {
        return Err(ReadError::Malformed);
    }
    Ok(parts)
}

/// What stands behind the preamble.
fn behind_preamble(bytes: &[u8]) -> Result<&[u8], ReadError>
    ensures shorter { IfOk result (λ x. length x.now ≤ length bytes.now) }
    ensures gives { Gives (λ x. x.now) result (behind preamble bytes.now) }
{
    match bytes {
        [0x00, 0x61, 0x73, 0x6D, 0x01, 0x00, 0x00, 0x00, rest @ ..] => Ok(rest),
        _ => Err(ReadError::Malformed),
    }
}

/// Whether there are as many types of functions as code entries, and the data count is right.
fn agree(parts: &Parts, built: &Built) -> bool
    ensures { result ≡ agrees (parts.now, built.now) }
{
    if parts.funcs.len() != parts.codes.len() {
        return false;
    }
    match parts.data_count {
        None => !built.data_used,
        Some(count) => count as usize == parts.datas.len(),
    }
}

/// What the sections of the module hold that the bytes spell, and what its expressions build.
#[tactic(auto, unfolding(crate::specs::Module::module_in, crate::specs::Module::sections_in))]
pub fn module_parts_of(alloc: Global, bytes: &[u8]) -> Result<(Parts, Built), ReadError>
    requires { length bytes.now < 2 ^ 32 }
    ensures { Gives (λ x. x) result (module_in bytes.now) }
{
    let rest = behind_preamble(bytes)?;
    let mut built = Built {
        blocks: Items::new(alloc),
        first: None,
        data_used: false,
    };
    let parts = sections_of(alloc, &mut built, rest)?;
    if !agree(&parts, &built) {
        return Err(ReadError::Malformed);
    }
    Ok((parts, built))
}
