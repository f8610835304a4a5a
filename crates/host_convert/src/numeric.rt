//! Conversions to numbers (ECMA-262, section 7.1; Web IDL, section 3.2.4).
ghost use Rattle.std.specs.Prelude.{◌≡◌};
ghost use Rattle.host_convert.specs.Conversions as spec;

use crate::conv::Conv;
use embed_base::OutsideKind;
use host_values::{ErrorClass, HostValue};

/// The operand of an operator between numbers.
#[derive(Clone, Copy, PartialEq, Eq, Debug)]
pub enum Numeric {
    NaN,
    Number(i64),
    BigInt(i128),
}

/// ToNumber (ECMA-262, section 7.1.4). None is NaN.
pub fn to_number(v: &HostValue) -> Conv<Option<i64>>
    ensures { result ≡ spec.to_number v.now }
{
    match v {
        HostValue::Undefined => Conv::Value(None),
        HostValue::Null => Conv::Value(Some(0)),
        HostValue::Bool(truth) => Conv::Value(Some(i64::from(*truth))),
        HostValue::Number(number) => Conv::Value(Some(*number)),
        HostValue::BigInt(_) => Conv::Throw(ErrorClass::TypeError),
        HostValue::Text(_) => Conv::Outside(OutsideKind::TextNumber),
        HostValue::Object(_) => Conv::Outside(OutsideKind::ToPrimitive),
    }
}

/// ToInt32 (ECMA-262, section 7.1.6), as the 32 bits of its result.
pub fn to_int32(v: &HostValue) -> Conv<u32>
    ensures { result ≡ spec.to_int32 v.now }
{
    match v {
        HostValue::Undefined | HostValue::Null => Conv::Value(0),
        HostValue::Bool(truth) => Conv::Value(u32::from(*truth)),
        HostValue::Number(number) => Conv::Value(number.rem_euclid(4_294_967_296) as u32),
        HostValue::BigInt(_) => Conv::Throw(ErrorClass::TypeError),
        HostValue::Text(_) => Conv::Outside(OutsideKind::TextNumber),
        HostValue::Object(_) => Conv::Outside(OutsideKind::ToPrimitive),
    }
}

/// ToBigInt64 (ECMA-262, section 7.1.15), as the 64 bits of its result.
pub fn to_big_int64(v: &HostValue) -> Conv<u64>
    ensures { result ≡ spec.to_big_int64 v.now }
{
    match v {
        HostValue::Bool(truth) => Conv::Value(u64::from(*truth)),
        HostValue::BigInt(number) => {
            Conv::Value(number.rem_euclid(18_446_744_073_709_551_616) as u64)
        }
        HostValue::Undefined | HostValue::Null | HostValue::Number(_) => {
            Conv::Throw(ErrorClass::TypeError)
        }
        HostValue::Text(_) => Conv::Outside(OutsideKind::TextNumber),
        HostValue::Object(_) => Conv::Outside(OutsideKind::ToPrimitive),
    }
}

/// A Number within 0 to 2^32-1.
fn in_u32(number: i64) -> Conv<u32>
    ensures { result ≡ spec.in_u32 number }
{
    if 0 <= number && number < 4_294_967_296 {
        Conv::Value(number as u32)
    } else {
        Conv::Throw(ErrorClass::TypeError)
    }
}

/// An `unsigned long` with EnforceRange (Web IDL, sections 3.2.4.6 and 3.2.4.9).
pub fn enforce_u32(v: &HostValue) -> Conv<u32>
    ensures { result ≡ spec.enforce_range v.now }
{
    match v {
        HostValue::Null => Conv::Value(0),
        HostValue::Bool(truth) => Conv::Value(u32::from(*truth)),
        HostValue::Number(number) => in_u32(*number),
        HostValue::Undefined | HostValue::BigInt(_) => Conv::Throw(ErrorClass::TypeError),
        HostValue::Text(_) => Conv::Outside(OutsideKind::TextNumber),
        HostValue::Object(_) => Conv::Outside(OutsideKind::ToPrimitive),
    }
}

/// A Number that isn't below 0.
fn not_negative(number: i64) -> Conv<u64>
    ensures { result ≡ spec.not_negative number }
{
    if 0 <= number {
        Conv::Value(number as u64)
    } else {
        Conv::Throw(ErrorClass::RangeError)
    }
}

/// ToIndex (ECMA-262, section 7.1.22).
pub fn to_index(v: &HostValue) -> Conv<u64>
    ensures { result ≡ spec.to_index v.now }
{
    match v {
        HostValue::Undefined | HostValue::Null => Conv::Value(0),
        HostValue::Bool(truth) => Conv::Value(u64::from(*truth)),
        HostValue::Number(number) => not_negative(*number),
        HostValue::BigInt(_) => Conv::Throw(ErrorClass::TypeError),
        HostValue::Text(_) => Conv::Outside(OutsideKind::TextNumber),
        HostValue::Object(_) => Conv::Outside(OutsideKind::ToPrimitive),
    }
}

/// ToUint8 (ECMA-262, section 7.1.11), for an element of a Uint8Array.
pub fn to_byte(v: &HostValue) -> Conv<u8>
    ensures { result ≡ spec.to_uint8 v.now }
{
    match v {
        HostValue::Undefined | HostValue::Null => Conv::Value(0),
        HostValue::Bool(truth) => Conv::Value(u8::from(*truth)),
        HostValue::Number(number) => Conv::Value(number.rem_euclid(256) as u8),
        HostValue::BigInt(_) => Conv::Throw(ErrorClass::TypeError),
        HostValue::Text(_) => Conv::Outside(OutsideKind::TextNumber),
        HostValue::Object(_) => Conv::Outside(OutsideKind::ToPrimitive),
    }
}
