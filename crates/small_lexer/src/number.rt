ghost use Rattle.std.specs.Prelude.{◌≡◌, ◌↔◌, IsTrue, true, All, MatchOption};
ghost use Rattle.small_lexer.specs.Tokens as spec;

use crate::bytes::is_digit;
use embed_base::limits::GREATEST_NUMBER;

// Whether the bytes are digits.
fn are_digits(bytes: &[u8]) -> bool
    ensures { IsTrue result ↔ All (λ c. spec.is_digit c ≡ true) bytes.now }
{
    bytes.iter().all(|byte| is_digit(*byte))
}

// Whether the bytes are `0` or decimal digits that don't begin with `0`.
fn is_decimal(digits: &[u8]) -> bool
    ensures { IsTrue result ↔ spec.IsDecimal digits.now }
{
    if digits.is_empty() {
        return false;
    }
    if digits.len() > 1 && digits[0] == b'0' {
        return false;
    }
    are_digits(digits)
}

/// The number that is spelt so, if it is one of the profile.
pub fn number_value(digits: &[u8]) -> Option<u64>
    ensures value { MatchOption result (¬ spec.IsElement (spec.number digits.now)) (λ value. value ≡ spec.value_of digits.now) }
    ensures some { MatchOption result (Unit {0}) (λ value. spec.IsElement (spec.number digits.now)) }
{
    if !is_decimal(digits) {
        return None;
    }
    let mut value: u64 = 0;
    for digit in digits {
        value = 10 * value + u64::from(*digit - b'0');
        if value > GREATEST_NUMBER {
            return None;
        }
    }
    Some(value)
}
