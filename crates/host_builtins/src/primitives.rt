//! `BigInt`, `Number` and `String` as functions.
ghost use Rattle.std.specs.Prelude.{◌≡◌, IfOk};
ghost use Rattle.host_convert.specs.Conversions.{to_string};
ghost use Rattle.host_convert.specs.Operators as operators;
ghost use Rattle.host_builtins.specs.Replies as spec;

use crate::replies::Reply;
use embed_base::limits::GREATEST_NUMBER;
use embed_base::{OutsideKind, SharedString};
use host_convert::{Conv, to_number, to_text};
use host_values::{ErrorClass, HostValue};
use std::alloc::{AllocError, Global};

/// A value as a BigInt.
fn big_int_of(value: &HostValue) -> Reply
    ensures { result ≡ spec.big_int_of_value value.now }
{
    match value {
        HostValue::Undefined | HostValue::Null => Reply::Throw(ErrorClass::TypeError),
        HostValue::Bool(truth) => Reply::Value(HostValue::BigInt(i128::from(*truth))),
        HostValue::Number(number) => Reply::Value(HostValue::BigInt(i128::from(*number))),
        HostValue::BigInt(number) => Reply::Value(HostValue::BigInt(*number)),
        HostValue::Text(_) => Reply::Outside(OutsideKind::TextNumber),
        HostValue::Object(_) => Reply::Outside(OutsideKind::ToPrimitive),
    }
}

/// `BigInt(v)` (ECMA-262, section 21.2.1.1).
pub fn big_int(args: &[HostValue]) -> Reply
    ensures { result ≡ spec.big_int_call args.now }
{
    match args.first() {
        Some(value) => big_int_of(value),
        None => Reply::Throw(ErrorClass::TypeError),
    }
}

/// A BigInt as a Number.
fn number_of_big_int(number: i128) -> Reply
    ensures { result ≡ spec.reply_of (operators.number_of number) }
{
    if number.unsigned_abs() <= u128::from(GREATEST_NUMBER) {
        Reply::Value(HostValue::Number(number as i64))
    } else {
        Reply::Outside(OutsideKind::Number)
    }
}

/// A value as a Number.
fn number_of(value: &HostValue) -> Reply
    ensures { result ≡ spec.number_of_value value.now }
{
    if let HostValue::BigInt(number) = value {
        return number_of_big_int(*number);
    }
    match to_number(value) {
        Conv::Value(Some(number)) => Reply::Value(HostValue::Number(number)),
        Conv::Value(None) => Reply::Outside(OutsideKind::Number),
        Conv::Throw(class) => Reply::Throw(class),
        Conv::Outside(kind) => Reply::Outside(kind),
    }
}

/// `Number(v)` (ECMA-262, section 21.1.1.1).
pub fn number(args: &[HostValue]) -> Reply
    ensures { result ≡ spec.number_call args.now }
{
    match args.first() {
        Some(value) => number_of(value),
        None => Reply::Value(HostValue::Number(0)),
    }
}

/// A value as a text.
fn string_of(alloc: Global, value: &HostValue) -> Result<Reply, AllocError>
    ensures { IfOk result (λ r. r ≡ spec.text_reply (to_string value.now)) }
{
    match to_text(alloc, value)? {
        Conv::Value(text) => Ok(Reply::Value(HostValue::Text(text))),
        Conv::Throw(class) => Ok(Reply::Throw(class)),
        Conv::Outside(kind) => Ok(Reply::Outside(kind)),
    }
}

/// `String(v)` (ECMA-262, section 22.1.1.1).
pub fn string(alloc: Global, args: &[HostValue]) -> Result<Reply, AllocError>
    ensures { IfOk result (λ r. r ≡ spec.string_call args.now) }
{
    match args.first() {
        Some(value) => string_of(alloc, value),
        None => {
            let text = SharedString::from_str(alloc, "")?;
            Ok(Reply::Value(HostValue::Text(text)))
        }
    }
}
