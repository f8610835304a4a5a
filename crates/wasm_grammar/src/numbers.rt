//! Integers in LEB128 (WebAssembly Core 2.0, section 5.2.2), of which each spelling inside the bound is read.

ghost use Rattle.std.specs.Prelude.{◌≡◌, ◌+◌, ◌≤◌, ◌<◌, ◌^◌, ◌∷◌, [], IfOk, IfSome, MatchOption, length};
ghost use Rattle.wasm_grammar.specs.Answers.{Gives, IsDecided};
ghost use Rattle.wasm_grammar.specs.Reading.{leb_at, u32_at, word_of, s32_at, type_index_at, s64_at};

use crate::fault::ReadError;

/// A number that so many groups of seven bits spell, and the first one that they can't.
#[derive(Clone, Copy)]
struct Leb {
    number: u128,
    top: u128,
}

/// The byte at the front, and what stands behind it.
fn next_byte(bytes: &[u8]) -> Option<(u8, &[u8])>
    ensures parts { MatchOption result (bytes.now ≡ []) (λ x. bytes.now ≡ x.0 ∷ x.1.now) }
    ensures byte { IfSome result (λ x. x.0 < 2 ^ 8) }
{
    match bytes {
        [] => None,
        [byte, rest @ ..] => Some((*byte, rest)),
    }
}

/// The number at the front that at most so many bytes spell, and what stands behind it.
fn leb_of(bytes: &[u8], most: u32) -> Result<(Leb, &[u8]), ReadError>
    requires { most ≤ 10 }
    ensures gives { Gives (λ x. ((x.0.number, x.0.top), x.1.now)) result (leb_at 0 1 bytes.now most) }
    ensures shorter { IfOk result (λ x. length x.1.now ≤ length bytes.now) }
    ensures fits { IfOk result (λ x. (x.0.number < x.0.top) × (x.0.top ≤ 2 ^ 70)) }
    ensures decided { IsDecided result }
{
    let mut number: u128 = 0;
    let mut unit: u128 = 1;
    let mut rest = bytes;
    for _ in 0..most {
        let Some((byte, next)) = next_byte(rest) else {
            return Err(ReadError::Malformed);
        };
        let group = byte as u128;
        if group < 128 {
            let number = number + group * unit;
            return Ok((
                Leb {
                    number,
                    top: 128 * unit,
                },
                next,
            ));
        }
        number += (group - 128) * unit;
        unit *= 128;
        rest = next;
    }
    Err(ReadError::Malformed)
}

/// The unsigned integer of 32 bits at the front, and what stands behind it.
#[tactic(auto, unfolding(crate::specs::Reading::u32_at))]
pub fn u32_of(bytes: &[u8]) -> Result<(u32, &[u8]), ReadError>
    ensures gives { Gives (λ x. (x.0, x.1.now)) result (u32_at bytes.now) }
    ensures shorter { IfOk result (λ x. length x.1.now ≤ length bytes.now) }
    ensures decided { IsDecided result }
{
    let (unsigned, rest) = leb_of(bytes, 5)?;
    if unsigned.number > u32::MAX as u128 {
        return Err(ReadError::Malformed);
    }
    Ok((unsigned.number as u32, rest))
}

/// The word for a number in two's complement, where half of the words aren't negative.
fn word(leb: Leb, half: u128) -> Option<u128>
    requires below { leb.number < leb.top }
    requires small { leb.top ≤ 2 ^ 70 }
    requires middle { half ≤ 2 ^ 63 }
    ensures value { result ≡ word_of half leb.top leb.number }
    ensures fits { IfSome result (λ word. word < half + half) }
{
    if leb.number + leb.number < leb.top {
        if leb.number < half {
            return Some(leb.number);
        }
        return None;
    }
    if leb.number + half < leb.top {
        return None;
    }
    Some(leb.number + half + half - leb.top)
}

/// The signed integer of 32 bits at the front, as a word.
#[tactic(auto, unfolding(crate::specs::Reading::signed_at))]
pub fn s32_of(bytes: &[u8]) -> Result<(u32, &[u8]), ReadError>
    ensures gives { Gives (λ x. (x.0, x.1.now)) result (s32_at bytes.now) }
    ensures shorter { IfOk result (λ x. length x.1.now ≤ length bytes.now) }
    ensures decided { IsDecided result }
{
    let (signed, rest) = leb_of(bytes, 5)?;
    match word(signed, 1 << 31) {
        Some(word) => Ok((word as u32, rest)),
        None => Err(ReadError::Malformed),
    }
}

/// The signed integer of 64 bits at the front, as a word.
#[tactic(auto, unfolding(crate::specs::Reading::signed_at))]
pub fn s64_of(bytes: &[u8]) -> Result<(u64, &[u8]), ReadError>
    ensures gives { Gives (λ x. (x.0, x.1.now)) result (s64_at bytes.now) }
    ensures shorter { IfOk result (λ x. length x.1.now ≤ length bytes.now) }
    ensures decided { IsDecided result }
{
    let (leb, rest) = leb_of(bytes, 10)?;
    match word(leb, 1 << 63) {
        Some(word) => Ok((word as u64, rest)),
        None => Err(ReadError::Malformed),
    }
}

/// The index of a type at the front: a signed integer of 33 bits that isn't negative.
#[tactic(auto, unfolding(crate::specs::Reading::type_index_at))]
pub fn type_index_of(bytes: &[u8]) -> Result<(u32, &[u8]), ReadError>
    ensures gives { Gives (λ x. (x.0, x.1.now)) result (type_index_at bytes.now) }
    ensures shorter { IfOk result (λ x. length x.1.now ≤ length bytes.now) }
    ensures decided { IsDecided result }
{
    let (index, rest) = leb_of(bytes, 5)?;
    if index.number + index.number >= index.top || index.number > u32::MAX as u128 {
        return Err(ReadError::Malformed);
    }
    Ok((index.number as u32, rest))
}
