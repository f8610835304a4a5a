//! Operators between numbers.
ghost use Rattle.std.specs.Prelude.{FitsSigned, ◌≡◌, ◌+ℤ◌, ℤ, pos, neg_ℤ};
ghost use Rattle.std.specs.Int.{w64, w128};
ghost use Rattle.std.specs.Option.{SomeIff};
ghost use Rattle.host_convert.specs.Operators as spec;

use crate::conv::Conv;
use crate::numeric::Numeric;
use crate::operators::Arith;
use crate::primitives::{is_object, is_text, to_numeric};
use embed_base::OutsideKind;
use embed_base::limits::GREATEST_NUMBER;
use host_values::{ErrorClass, HostValue};

/// A result of whole numbers as a Number; none is one beyond 64 bits.
fn number(value: Option<i64>) -> Conv<HostValue>
    ensures { (z : ℤ) → SomeIff value (FitsSigned w64 z) z → result ≡ spec.number_of z }
{
    match value {
        Some(number) if number.unsigned_abs() <= GREATEST_NUMBER => {
            Conv::Value(HostValue::Number(number))
        }
        _ => Conv::Outside(OutsideKind::Number),
    }
}

/// A result of whole numbers as a BigInt; none is one beyond 128 bits.
fn big_int(value: Option<i128>) -> Conv<HostValue>
    ensures { (z : ℤ) → SomeIff value (FitsSigned w128 z) z → result ≡ spec.big_int_of z }
{
    match value {
        Some(number) => Conv::Value(HostValue::BigInt(number)),
        None => Conv::Outside(OutsideKind::BigInt),
    }
}

/// The sum of two Numbers.
fn number_sum(a: i64, b: i64) -> Conv<HostValue>
    ensures { result ≡ spec.number_of (a +ℤ b) }
{
    number(a.checked_add(b))
}

/// The sum of two BigInts.
fn big_int_sum(a: i128, b: i128) -> Conv<HostValue>
    ensures { result ≡ spec.big_int_of (a +ℤ b) }
{
    big_int(a.checked_add(b))
}

/// The quotient of two Numbers, where it is whole.
fn number_quotient(a: i64, b: i64) -> Conv<HostValue>
    ensures { result ≡ spec.number_quotient a b }
{
    if b == 0 {
        return Conv::Outside(OutsideKind::Number);
    }
    if b == -1 {
        return number(a.checked_neg());
    }
    if a % b == 0 {
        number(a.checked_div(b))
    } else {
        Conv::Outside(OutsideKind::Number)
    }
}

/// The remainder of two Numbers, with the dividend's sign.
fn number_remainder(a: i64, b: i64) -> Conv<HostValue>
    ensures { result ≡ spec.number_remainder a b }
{
    if b == 0 {
        return Conv::Outside(OutsideKind::Number);
    }
    if b == -1 {
        return Conv::Value(HostValue::Number(0));
    }
    number(Some(a % b))
}

/// The quotient of two BigInts, cut toward zero.
fn big_int_quotient(a: i128, b: i128) -> Conv<HostValue>
    ensures { result ≡ spec.big_int_quotient a b }
{
    if b == 0 {
        return Conv::Throw(ErrorClass::RangeError);
    }
    big_int(a.checked_div(b))
}

/// The remainder of two BigInts, with the dividend's sign.
fn big_int_remainder(a: i128, b: i128) -> Conv<HostValue>
    ensures { result ≡ spec.big_int_remainder a b }
{
    if b == 0 {
        return Conv::Throw(ErrorClass::RangeError);
    }
    if b == -1 {
        return Conv::Value(HostValue::BigInt(0));
    }
    big_int(Some(a % b))
}

/// An operator between two Numbers.
fn number_result(op: Arith, a: i64, b: i64) -> Conv<HostValue>
    ensures { result ≡ spec.number_result op a b }
{
    match op {
        Arith::Sub => number(a.checked_sub(b)),
        Arith::Mul => number(a.checked_mul(b)),
        Arith::Div => number_quotient(a, b),
        Arith::Rem => number_remainder(a, b),
    }
}

/// An operator between two BigInts.
fn big_int_result(op: Arith, a: i128, b: i128) -> Conv<HostValue>
    ensures { result ≡ spec.big_int_result op a b }
{
    match op {
        Arith::Sub => big_int(a.checked_sub(b)),
        Arith::Mul => big_int(a.checked_mul(b)),
        Arith::Div => big_int_quotient(a, b),
        Arith::Rem => big_int_remainder(a, b),
    }
}

/// An operator between two numbers.
fn numeric_result(op: Arith, a: Numeric, b: Numeric) -> Conv<HostValue>
    ensures { result ≡ spec.numeric_result (spec.number_result op) (spec.big_int_result op) a b }
{
    match (a, b) {
        (Numeric::BigInt(a), Numeric::BigInt(b)) => big_int_result(op, a, b),
        (Numeric::BigInt(_), _) => Conv::Throw(ErrorClass::TypeError),
        (_, Numeric::BigInt(_)) => Conv::Throw(ErrorClass::TypeError),
        (Numeric::Number(a), Numeric::Number(b)) => number_result(op, a, b),
        _ => Conv::Outside(OutsideKind::Number),
    }
}

/// The sum of two numbers.
pub(crate) fn numeric_sum(a: Numeric, b: Numeric) -> Conv<HostValue>
    ensures { result ≡ spec.numeric_sum a b }
{
    match (a, b) {
        (Numeric::BigInt(a), Numeric::BigInt(b)) => big_int_sum(a, b),
        (Numeric::BigInt(_), _) => Conv::Throw(ErrorClass::TypeError),
        (_, Numeric::BigInt(_)) => Conv::Throw(ErrorClass::TypeError),
        (Numeric::Number(a), Numeric::Number(b)) => number_sum(a, b),
        _ => Conv::Outside(OutsideKind::Number),
    }
}

/// `-`, `*`, `/` and `%` between two values (ECMA-262, section 13.15.3).
pub fn arith(op: Arith, a: &HostValue, b: &HostValue) -> Conv<HostValue>
    ensures { result ≡ spec.arith_of op a.now b.now }
{
    if is_object(a) || is_object(b) {
        return Conv::Outside(OutsideKind::ToPrimitive);
    }
    if is_text(a) || is_text(b) {
        return Conv::Outside(OutsideKind::TextNumber);
    }
    numeric_result(op, to_numeric(a), to_numeric(b))
}

/// A number with the other sign.
fn negated(number_or_not: Numeric) -> Conv<HostValue>
    ensures { result ≡ spec.negated number_or_not }
{
    match number_or_not {
        Numeric::NaN => Conv::Outside(OutsideKind::Number),
        Numeric::Number(z) => number(z.checked_neg()),
        Numeric::BigInt(z) => big_int(z.checked_neg()),
    }
}

/// Unary `-` (ECMA-262, section 13.5.5).
pub fn negate(v: &HostValue) -> Conv<HostValue>
    ensures { result ≡ spec.negation_of v.now }
{
    if is_object(v) {
        return Conv::Outside(OutsideKind::ToPrimitive);
    }
    if is_text(v) {
        return Conv::Outside(OutsideKind::TextNumber);
    }
    negated(to_numeric(v))
}
