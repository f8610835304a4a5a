//! Parts whose size is told, and names (WebAssembly Core 2.0, sections 5.1.3 and 5.2.4).

ghost use Rattle.std.specs.Prelude.{◌≡◌, ◌≤◌, ◌+◌, IfOk, length};
ghost use Rattle.wasm_grammar.specs.Answers.{Gives, IsDecided};
ghost use Rattle.wasm_grammar.specs.Reading.{part_at, name_at, custom_at};

use crate::fault::ReadError;
use crate::numbers::u32_of;
use std::alloc::Global;
use wasm_syntax::Name;

/// As many bytes as the number at the front tells, lent, and what stands behind them.
#[tactic(auto, unfolding(crate::specs::Reading::part_at))]
pub fn part_of(bytes: &[u8]) -> Result<(&[u8], &[u8]), ReadError>
    ensures gives { Gives (λ x. (x.0.now, x.1.now)) result (part_at bytes.now) }
    ensures shorter { IfOk result (λ x. length x.0.now + length x.1.now ≤ length bytes.now) }
    ensures decided { IsDecided result }
{
    let (size, rest) = u32_of(bytes)?;
    let size = size as usize;
    if rest.len() < size {
        return Err(ReadError::Malformed);
    }
    let (part, rest) = rest.split_at(size);
    Ok((part, rest))
}

/// The name at the front, and what stands behind it.
#[tactic(auto, using(crate::proofs::Texts::utf8_yes, crate::proofs::Texts::utf8_no), unfolding(crate::specs::Reading::name_at))]
pub fn name_of(alloc: Global, bytes: &[u8]) -> Result<(Name, &[u8]), ReadError>
    ensures gives { Gives (λ x. (x.0, x.1.now)) result (name_at bytes.now) }
    ensures shorter { IfOk result (λ x. length x.1.now ≤ length bytes.now) }
{
    let (part, rest) = part_of(bytes)?;
    match std::str::from_utf8(part) {
        Ok(text) => {
            let name = Name::from_str(alloc, text)?;
            Ok((name, rest))
        }
        Err(_) => Err(ReadError::Malformed),
    }
}

/// What stands behind the custom section at the front, whose id was read: a size, a name and any bytes. Nothing of it is copied.
#[tactic(auto, using(crate::proofs::Texts::utf8_yes, crate::proofs::Texts::utf8_no), unfolding(crate::specs::Reading::name_at))]
pub fn behind_custom(bytes: &[u8]) -> Result<&[u8], ReadError>
    ensures gives { Gives (λ x. x.now) result (custom_at bytes.now) }
    ensures shorter { IfOk result (λ x. length x.now ≤ length bytes.now) }
    ensures decided { IsDecided result }
{
    let (part, rest) = part_of(bytes)?;
    let (name, _) = part_of(part)?;
    match std::str::from_utf8(name) {
        Ok(_) => Ok(rest),
        Err(_) => Err(ReadError::Malformed),
    }
}
