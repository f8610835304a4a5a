ghost use Rattle.std.specs.Prelude.{◌≡◌, ℕ, List, [], ◌∷◌, ◌++◌, length, ◌+◌, ◌*◌, ◌≤◌, ◌<◌, ◌^◌, MatchOption};
ghost use Rattle.host_lexer.specs.Numerals as spec;
ghost use Rattle.host_lexer.specs.Steps.{AreDigitsUpTo, HasNumeral, NoNumeral, HasNumber, NoNumber};

use crate::token::TokenKind;
use embed_base::limits::GREATEST_NUMBER;

// The greatest BigInt: 2 to the power of 127, less 1.
const GREATEST_BIG_INT: u128 = 0x7fff_ffff_ffff_ffff_ffff_ffff_ffff_ffff;

// The number that digits stand for and one more digit.
fn with_digit(value: u128, radix: u32, digit: u32) -> Option<u128>
    ensures { MatchOption result (2 ^ 128 ≤ value * radix + digit) (λ v. v ≡ value * radix + digit) }
{
    value
        .checked_mul(u128::from(radix))?
        .checked_add(u128::from(digit))
}

/// The number that digits of a radix stand for, where each is one and the number is at most `greatest`.
pub fn digits_value(digits: &[char], radix: u32, greatest: u128) -> Option<u128>
    requires low { 2 ≤ radix }
    requires high { radix ≤ 36 }
    ensures value { MatchOption result (¬ AreDigitsUpTo radix greatest digits.now) (λ v. v ≡ spec.value_in radix digits.now) }
    ensures some { MatchOption result (Unit {0}) (λ v. AreDigitsUpTo radix greatest digits.now) }
{
    let mut value: u128 = 0;
    for c in digits {
        let digit = c.to_digit(radix)?;
        value = with_digit(value, radix, digit)?;
        if value > greatest {
            return None;
        }
    }
    Some(value)
}

// The value of `0x` and hexadecimal digits, among the characters that begin with `0` and go on.
fn after_zero(chars: &[char], greatest: u128) -> Option<u128>
    requires { (d : ℕ) × (rest : List ℕ) × (chars.now ≡ 48 ∷ d ∷ rest) }
    ensures { MatchOption result (NoNumeral chars.now greatest) (λ v. HasNumeral chars.now greatest v) }
{
    if chars[1] != 'x' {
        return None;
    }
    if chars.len() == 2 {
        return None;
    }
    digits_value(&chars[2..], 16, greatest)
}

// The value of `0`, of decimal digits that don't begin with `0`, or of `0x` and hexadecimal digits, where it is at most
// `greatest`.
fn numeral_value(chars: &[char], greatest: u128) -> Option<u128>
    requires { 0 < length chars.now }
    ensures { MatchOption result (NoNumeral chars.now greatest) (λ v. HasNumeral chars.now greatest v) }
{
    if chars[0] != '0' {
        return digits_value(chars, 10, greatest);
    }
    if chars.len() == 1 {
        return Some(0);
    }
    after_zero(chars, greatest)
}

// The BigInt whose digits stand before an `n`.
fn big_int(chars: &[char]) -> Option<TokenKind>
    requires { (ds : List ℕ) × (chars.now ≡ ds ++ 110 ∷ []) }
    ensures { MatchOption result (NoNumber chars.now) (λ kind. HasNumber chars.now kind) }
{
    let last = chars.len() - 1;
    if last == 0 {
        return None;
    }
    let Some(value) = numeral_value(&chars[..last], GREATEST_BIG_INT) else {
        return None;
    };
    Some(TokenKind::BigInt(value))
}

/// The kind of the token that is spelt so, if it is a Number or a BigInt of the profile.
pub fn number_kind(chars: &[char]) -> Option<TokenKind>
    requires { 0 < length chars.now }
    ensures { MatchOption result (NoNumber chars.now) (λ kind. HasNumber chars.now kind) }
{
    if chars[chars.len() - 1] == 'n' {
        return big_int(chars);
    }
    let Some(value) = numeral_value(chars, u128::from(GREATEST_NUMBER)) else {
        return None;
    };
    Some(TokenKind::Number(value as u64))
}
