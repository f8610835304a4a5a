//! Calls of predefined objects without `new`.

use crate::samples::{
    Sample, TO_PRIMITIVE, TYPE_ERROR, Wanted, arguments, is_new_error, is_wanted, value_of,
};
use embed_base::{OutsideKind, SharedString};
use host_builtins::{call, error};
use host_values::{Class, ErrorClass, Heap, HostValue};
use std::alloc::{AllocError, Global};
use std::test::Fail;

/// A predefined object, its only argument, and what the call comes to.
type Case = (Class, Option<Sample>, Wanted);

const NO_NUMBER: Wanted = Wanted::Outside(OutsideKind::Number);

const TEXT_NUMBER: Wanted = Wanted::Outside(OutsideKind::TextNumber);

/// Conversions. Object 0 is `print`.
static CONVERSIONS: [Case; 35] = [
    (Class::BigInt, None, TYPE_ERROR),
    (Class::BigInt, Some(Sample::Undefined), TYPE_ERROR),
    (Class::BigInt, Some(Sample::Null), TYPE_ERROR),
    (
        Class::BigInt,
        Some(Sample::Bool(false)),
        Wanted::Value(Sample::BigInt(0)),
    ),
    (
        Class::BigInt,
        Some(Sample::Bool(true)),
        Wanted::Value(Sample::BigInt(1)),
    ),
    (
        Class::BigInt,
        Some(Sample::Number(5)),
        Wanted::Value(Sample::BigInt(5)),
    ),
    (
        Class::BigInt,
        Some(Sample::Number(-9_007_199_254_740_991)),
        Wanted::Value(Sample::BigInt(-9_007_199_254_740_991)),
    ),
    (
        Class::BigInt,
        Some(Sample::BigInt(-7)),
        Wanted::Value(Sample::BigInt(-7)),
    ),
    (
        Class::BigInt,
        Some(Sample::BigInt(170_141_183_460_469_231_731_687_303_715_884_105_727)),
        Wanted::Value(Sample::BigInt(170_141_183_460_469_231_731_687_303_715_884_105_727)),
    ),
    (Class::BigInt, Some(Sample::Text("5")), TEXT_NUMBER),
    (Class::BigInt, Some(Sample::Object(0)), TO_PRIMITIVE),
    (Class::Number, None, Wanted::Value(Sample::Number(0))),
    (Class::Number, Some(Sample::Undefined), NO_NUMBER),
    (
        Class::Number,
        Some(Sample::Null),
        Wanted::Value(Sample::Number(0)),
    ),
    (
        Class::Number,
        Some(Sample::Bool(false)),
        Wanted::Value(Sample::Number(0)),
    ),
    (
        Class::Number,
        Some(Sample::Bool(true)),
        Wanted::Value(Sample::Number(1)),
    ),
    (
        Class::Number,
        Some(Sample::Number(-3)),
        Wanted::Value(Sample::Number(-3)),
    ),
    (
        Class::Number,
        Some(Sample::BigInt(5)),
        Wanted::Value(Sample::Number(5)),
    ),
    (
        Class::Number,
        Some(Sample::BigInt(9_007_199_254_740_991)),
        Wanted::Value(Sample::Number(9_007_199_254_740_991)),
    ),
    (
        Class::Number,
        Some(Sample::BigInt(9_007_199_254_740_992)),
        NO_NUMBER,
    ),
    (
        Class::Number,
        Some(Sample::BigInt(-9_007_199_254_740_991)),
        Wanted::Value(Sample::Number(-9_007_199_254_740_991)),
    ),
    (
        Class::Number,
        Some(Sample::BigInt(-9_007_199_254_740_992)),
        NO_NUMBER,
    ),
    (
        Class::Number,
        Some(Sample::BigInt(18_446_744_073_709_551_617)),
        NO_NUMBER,
    ),
    (
        Class::Number,
        Some(Sample::BigInt(-170_141_183_460_469_231_731_687_303_715_884_105_728)),
        NO_NUMBER,
    ),
    (Class::Number, Some(Sample::Text("5")), TEXT_NUMBER),
    (Class::Number, Some(Sample::Object(0)), TO_PRIMITIVE),
    (Class::String, None, Wanted::Value(Sample::Text(""))),
    (
        Class::String,
        Some(Sample::Undefined),
        Wanted::Value(Sample::Text("undefined")),
    ),
    (
        Class::String,
        Some(Sample::Null),
        Wanted::Value(Sample::Text("null")),
    ),
    (
        Class::String,
        Some(Sample::Bool(false)),
        Wanted::Value(Sample::Text("false")),
    ),
    (
        Class::String,
        Some(Sample::Bool(true)),
        Wanted::Value(Sample::Text("true")),
    ),
    (
        Class::String,
        Some(Sample::Number(-7)),
        Wanted::Value(Sample::Text("-7")),
    ),
    (
        Class::String,
        Some(Sample::BigInt(7)),
        Wanted::Value(Sample::Text("7")),
    ),
    (
        Class::String,
        Some(Sample::Text("é")),
        Wanted::Value(Sample::Text("é")),
    ),
    (Class::String, Some(Sample::Object(0)), TO_PRIMITIVE),
];

/// Error classes.
static ERRORS: [Case; 16] = [
    (Class::Error, None, Wanted::Error(ErrorClass::Error, "")),
    (
        Class::Error,
        Some(Sample::Undefined),
        Wanted::Error(ErrorClass::Error, ""),
    ),
    (
        Class::Error,
        Some(Sample::Null),
        Wanted::Error(ErrorClass::Error, "null"),
    ),
    (
        Class::Error,
        Some(Sample::Bool(true)),
        Wanted::Error(ErrorClass::Error, "true"),
    ),
    (
        Class::Error,
        Some(Sample::Number(1)),
        Wanted::Error(ErrorClass::Error, "1"),
    ),
    (
        Class::Error,
        Some(Sample::BigInt(1)),
        Wanted::Error(ErrorClass::Error, "1"),
    ),
    (Class::Error, Some(Sample::Object(0)), TO_PRIMITIVE),
    (
        Class::Error,
        Some(Sample::Text("m")),
        Wanted::Error(ErrorClass::Error, "m"),
    ),
    (
        Class::TypeError,
        Some(Sample::Text("m")),
        Wanted::Error(ErrorClass::TypeError, "m"),
    ),
    (
        Class::RangeError,
        Some(Sample::Text("m")),
        Wanted::Error(ErrorClass::RangeError, "m"),
    ),
    (
        Class::ReferenceError,
        Some(Sample::Text("m")),
        Wanted::Error(ErrorClass::ReferenceError, "m"),
    ),
    (
        Class::SyntaxError,
        Some(Sample::Text("m")),
        Wanted::Error(ErrorClass::SyntaxError, "m"),
    ),
    (
        Class::CompileError,
        Some(Sample::Text("m")),
        Wanted::Error(ErrorClass::CompileError, "m"),
    ),
    (
        Class::LinkError,
        Some(Sample::Text("m")),
        Wanted::Error(ErrorClass::LinkError, "m"),
    ),
    (
        Class::RuntimeError,
        Some(Sample::Text("m")),
        Wanted::Error(ErrorClass::RuntimeError, "m"),
    ),
    (
        Class::SuspendError,
        Some(Sample::Text("m")),
        Wanted::Error(ErrorClass::SuspendError, "m"),
    ),
];

/// What isn't called without `new`, or is answered elsewhere.
static OTHERS: [Case; 13] = [
    (Class::Print, None, Wanted::Interface),
    (Class::Readbuffer, None, Wanted::Interface),
    (Class::Utf8Text, None, Wanted::Interface),
    (Class::Object, None, TYPE_ERROR),
    (Class::Promise, None, TYPE_ERROR),
    (Class::Uint8Array, None, TYPE_ERROR),
    (Class::WebAssembly, None, TYPE_ERROR),
    (Class::Module, None, TYPE_ERROR),
    (Class::Instance, None, TYPE_ERROR),
    (Class::Memory, None, TYPE_ERROR),
    (Class::Table, None, TYPE_ERROR),
    (Class::Global, None, TYPE_ERROR),
    (Class::Suspending, None, TYPE_ERROR),
];

/// Whether a call comes to what is wanted.
fn comes_to(alloc: Global, case: &Case) -> Result<bool, AllocError> {
    let mut heap = Heap::new(alloc, 0)?;
    let args = arguments(alloc, case.1)?;
    let reply = call(alloc, &mut heap, case.0, &args)?;
    Ok(is_wanted(&heap, 1, &reply, case.2))
}

#[test]
fn conversions(rt: HostRuntime) -> Result<(), Fail> {
    let alloc = rt.alloc();
    for case in CONVERSIONS.iter() {
        assert!(rt; comes_to(alloc, case)?, "a conversion");
    }
    Ok(())
}

#[test]
fn errors_without_new(rt: HostRuntime) -> Result<(), Fail> {
    let alloc = rt.alloc();
    for case in ERRORS.iter() {
        assert!(rt; comes_to(alloc, case)?, "an error");
    }
    Ok(())
}

#[test]
fn classes_without_new(rt: HostRuntime) -> Result<(), Fail> {
    let alloc = rt.alloc();
    for case in OTHERS.iter() {
        assert!(rt; comes_to(alloc, case)?, "a class");
    }
    Ok(())
}

/// Whether only the first argument counts.
fn takes_the_first(alloc: Global) -> Result<bool, AllocError> {
    let mut heap = Heap::new(alloc, 0)?;
    let args = [HostValue::Number(1), value_of(alloc, Sample::Object(0))?];
    let reply = call(alloc, &mut heap, Class::String, &args)?;
    Ok(is_wanted(&heap, 1, &reply, Wanted::Value(Sample::Text("1"))))
}

/// Whether the machine's own errors have their class and message.
fn makes_errors(alloc: Global) -> Result<bool, AllocError> {
    let mut heap = Heap::new(alloc, 0)?;
    let none = SharedString::from_str(alloc, "")?;
    let first = error(alloc, &mut heap, ErrorClass::ReferenceError, none)?;
    if !is_new_error(&heap, &first, 1, ErrorClass::ReferenceError, "") {
        return Ok(false);
    }
    let message = SharedString::from_str(alloc, "m")?;
    let second = error(alloc, &mut heap, ErrorClass::RangeError, message)?;
    Ok(is_new_error(&heap, &second, 2, ErrorClass::RangeError, "m"))
}

#[test]
fn first_argument(rt: HostRuntime) -> Result<(), Fail> {
    let alloc = rt.alloc();
    assert!(rt; takes_the_first(alloc)?, "one argument");
    Ok(())
}

#[test]
fn errors_of_the_machine(rt: HostRuntime) -> Result<(), Fail> {
    let alloc = rt.alloc();
    assert!(rt; makes_errors(alloc)?, "two errors");
    Ok(())
}
