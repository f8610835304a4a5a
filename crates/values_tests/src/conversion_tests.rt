//! Each row of the table of conversions at each kind of value, and at the bounds of its numbers.

use crate::samples::{Sample, Wanted, is_wanted, value_of};
use embed_base::OutsideKind;
use host_convert::{
    Conv, enforce_u32, to_big_int64, to_boolean, to_byte, to_index, to_int32, to_number, to_text,
};
use host_values::{ErrorClass, HostValue};
use std::alloc::{AllocError, Global};
use std::test::Fail;

/// A row of the table.
#[derive(Clone, Copy)]
enum Row {
    Number,
    Int32,
    BigInt64,
    EnforceRange,
    Index,
    Byte,
    Text,
    Boolean,
}

/// A row, a value, and what is wanted. NaN stands as undefined.
static CELLS: [(Row, Sample, Wanted); 109] = [
    (
        Row::Number,
        Sample::Undefined,
        Wanted::Value(Sample::Undefined),
    ),
    (Row::Number, Sample::Null, Wanted::Value(Sample::Number(0))),
    (
        Row::Number,
        Sample::Bool(false),
        Wanted::Value(Sample::Number(0)),
    ),
    (
        Row::Number,
        Sample::Bool(true),
        Wanted::Value(Sample::Number(1)),
    ),
    (
        Row::Number,
        Sample::Number(-5),
        Wanted::Value(Sample::Number(-5)),
    ),
    (
        Row::Number,
        Sample::Number(9_007_199_254_740_991),
        Wanted::Value(Sample::Number(9_007_199_254_740_991)),
    ),
    (
        Row::Number,
        Sample::Number(-9_007_199_254_740_991),
        Wanted::Value(Sample::Number(-9_007_199_254_740_991)),
    ),
    (
        Row::Number,
        Sample::BigInt(0),
        Wanted::Throw(ErrorClass::TypeError),
    ),
    (
        Row::Number,
        Sample::Text("7"),
        Wanted::Outside(OutsideKind::TextNumber),
    ),
    (
        Row::Number,
        Sample::Text(""),
        Wanted::Outside(OutsideKind::TextNumber),
    ),
    (
        Row::Number,
        Sample::Object(0),
        Wanted::Outside(OutsideKind::ToPrimitive),
    ),
    (
        Row::Int32,
        Sample::Undefined,
        Wanted::Value(Sample::Number(0)),
    ),
    (Row::Int32, Sample::Null, Wanted::Value(Sample::Number(0))),
    (
        Row::Int32,
        Sample::Bool(false),
        Wanted::Value(Sample::Number(0)),
    ),
    (
        Row::Int32,
        Sample::Bool(true),
        Wanted::Value(Sample::Number(1)),
    ),
    (
        Row::Int32,
        Sample::Number(7),
        Wanted::Value(Sample::Number(7)),
    ),
    (
        Row::Int32,
        Sample::Number(-1),
        Wanted::Value(Sample::Number(4_294_967_295)),
    ),
    (
        Row::Int32,
        Sample::Number(2_147_483_648),
        Wanted::Value(Sample::Number(2_147_483_648)),
    ),
    (
        Row::Int32,
        Sample::Number(2_147_483_647),
        Wanted::Value(Sample::Number(2_147_483_647)),
    ),
    (
        Row::Int32,
        Sample::Number(-2_147_483_648),
        Wanted::Value(Sample::Number(2_147_483_648)),
    ),
    (
        Row::Int32,
        Sample::Number(4_294_967_296),
        Wanted::Value(Sample::Number(0)),
    ),
    (
        Row::Int32,
        Sample::Number(4_294_967_301),
        Wanted::Value(Sample::Number(5)),
    ),
    (
        Row::Int32,
        Sample::Number(9_007_199_254_740_991),
        Wanted::Value(Sample::Number(4_294_967_295)),
    ),
    (
        Row::Int32,
        Sample::Number(-9_007_199_254_740_991),
        Wanted::Value(Sample::Number(1)),
    ),
    (
        Row::Int32,
        Sample::BigInt(1),
        Wanted::Throw(ErrorClass::TypeError),
    ),
    (
        Row::Int32,
        Sample::Text("7"),
        Wanted::Outside(OutsideKind::TextNumber),
    ),
    (
        Row::Int32,
        Sample::Object(0),
        Wanted::Outside(OutsideKind::ToPrimitive),
    ),
    (
        Row::BigInt64,
        Sample::Undefined,
        Wanted::Throw(ErrorClass::TypeError),
    ),
    (
        Row::BigInt64,
        Sample::Null,
        Wanted::Throw(ErrorClass::TypeError),
    ),
    (
        Row::BigInt64,
        Sample::Bool(false),
        Wanted::Value(Sample::BigInt(0)),
    ),
    (
        Row::BigInt64,
        Sample::Bool(true),
        Wanted::Value(Sample::BigInt(1)),
    ),
    (
        Row::BigInt64,
        Sample::Number(7),
        Wanted::Throw(ErrorClass::TypeError),
    ),
    (
        Row::BigInt64,
        Sample::BigInt(7),
        Wanted::Value(Sample::BigInt(7)),
    ),
    (
        Row::BigInt64,
        Sample::BigInt(-1),
        Wanted::Value(Sample::BigInt(18_446_744_073_709_551_615)),
    ),
    (
        Row::BigInt64,
        Sample::BigInt(9_223_372_036_854_775_808),
        Wanted::Value(Sample::BigInt(9_223_372_036_854_775_808)),
    ),
    (
        Row::BigInt64,
        Sample::BigInt(-9_223_372_036_854_775_808),
        Wanted::Value(Sample::BigInt(9_223_372_036_854_775_808)),
    ),
    (
        Row::BigInt64,
        Sample::BigInt(9_223_372_036_854_775_807),
        Wanted::Value(Sample::BigInt(9_223_372_036_854_775_807)),
    ),
    (
        Row::BigInt64,
        Sample::BigInt(18_446_744_073_709_551_616),
        Wanted::Value(Sample::BigInt(0)),
    ),
    (
        Row::BigInt64,
        Sample::BigInt(18_446_744_073_709_551_619),
        Wanted::Value(Sample::BigInt(3)),
    ),
    (
        Row::BigInt64,
        Sample::BigInt(170_141_183_460_469_231_731_687_303_715_884_105_727),
        Wanted::Value(Sample::BigInt(18_446_744_073_709_551_615)),
    ),
    (
        Row::BigInt64,
        Sample::BigInt(i128::MIN),
        Wanted::Value(Sample::BigInt(0)),
    ),
    (
        Row::BigInt64,
        Sample::Text("7"),
        Wanted::Outside(OutsideKind::TextNumber),
    ),
    (
        Row::BigInt64,
        Sample::Object(0),
        Wanted::Outside(OutsideKind::ToPrimitive),
    ),
    (
        Row::EnforceRange,
        Sample::Undefined,
        Wanted::Throw(ErrorClass::TypeError),
    ),
    (
        Row::EnforceRange,
        Sample::Null,
        Wanted::Value(Sample::Number(0)),
    ),
    (
        Row::EnforceRange,
        Sample::Bool(false),
        Wanted::Value(Sample::Number(0)),
    ),
    (
        Row::EnforceRange,
        Sample::Bool(true),
        Wanted::Value(Sample::Number(1)),
    ),
    (
        Row::EnforceRange,
        Sample::Number(0),
        Wanted::Value(Sample::Number(0)),
    ),
    (
        Row::EnforceRange,
        Sample::Number(2_147_483_648),
        Wanted::Value(Sample::Number(2_147_483_648)),
    ),
    (
        Row::EnforceRange,
        Sample::Number(4_294_967_295),
        Wanted::Value(Sample::Number(4_294_967_295)),
    ),
    (
        Row::EnforceRange,
        Sample::Number(4_294_967_296),
        Wanted::Throw(ErrorClass::TypeError),
    ),
    (
        Row::EnforceRange,
        Sample::Number(-1),
        Wanted::Throw(ErrorClass::TypeError),
    ),
    (
        Row::EnforceRange,
        Sample::Number(9_007_199_254_740_991),
        Wanted::Throw(ErrorClass::TypeError),
    ),
    (
        Row::EnforceRange,
        Sample::BigInt(0),
        Wanted::Throw(ErrorClass::TypeError),
    ),
    (
        Row::EnforceRange,
        Sample::Text("7"),
        Wanted::Outside(OutsideKind::TextNumber),
    ),
    (
        Row::EnforceRange,
        Sample::Object(0),
        Wanted::Outside(OutsideKind::ToPrimitive),
    ),
    (
        Row::Index,
        Sample::Undefined,
        Wanted::Value(Sample::BigInt(0)),
    ),
    (Row::Index, Sample::Null, Wanted::Value(Sample::BigInt(0))),
    (
        Row::Index,
        Sample::Bool(false),
        Wanted::Value(Sample::BigInt(0)),
    ),
    (
        Row::Index,
        Sample::Bool(true),
        Wanted::Value(Sample::BigInt(1)),
    ),
    (
        Row::Index,
        Sample::Number(0),
        Wanted::Value(Sample::BigInt(0)),
    ),
    (
        Row::Index,
        Sample::Number(4_294_967_296),
        Wanted::Value(Sample::BigInt(4_294_967_296)),
    ),
    (
        Row::Index,
        Sample::Number(9_007_199_254_740_991),
        Wanted::Value(Sample::BigInt(9_007_199_254_740_991)),
    ),
    (
        Row::Index,
        Sample::Number(-1),
        Wanted::Throw(ErrorClass::RangeError),
    ),
    (
        Row::Index,
        Sample::Number(-9_007_199_254_740_991),
        Wanted::Throw(ErrorClass::RangeError),
    ),
    (
        Row::Index,
        Sample::BigInt(0),
        Wanted::Throw(ErrorClass::TypeError),
    ),
    (
        Row::Index,
        Sample::Text("7"),
        Wanted::Outside(OutsideKind::TextNumber),
    ),
    (
        Row::Index,
        Sample::Object(0),
        Wanted::Outside(OutsideKind::ToPrimitive),
    ),
    (
        Row::Byte,
        Sample::Undefined,
        Wanted::Value(Sample::Number(0)),
    ),
    (Row::Byte, Sample::Null, Wanted::Value(Sample::Number(0))),
    (
        Row::Byte,
        Sample::Bool(false),
        Wanted::Value(Sample::Number(0)),
    ),
    (
        Row::Byte,
        Sample::Bool(true),
        Wanted::Value(Sample::Number(1)),
    ),
    (
        Row::Byte,
        Sample::Number(255),
        Wanted::Value(Sample::Number(255)),
    ),
    (
        Row::Byte,
        Sample::Number(256),
        Wanted::Value(Sample::Number(0)),
    ),
    (
        Row::Byte,
        Sample::Number(-1),
        Wanted::Value(Sample::Number(255)),
    ),
    (
        Row::Byte,
        Sample::Number(-256),
        Wanted::Value(Sample::Number(0)),
    ),
    (
        Row::Byte,
        Sample::Number(9_007_199_254_740_991),
        Wanted::Value(Sample::Number(255)),
    ),
    (
        Row::Byte,
        Sample::Number(-9_007_199_254_740_991),
        Wanted::Value(Sample::Number(1)),
    ),
    (
        Row::Byte,
        Sample::BigInt(0),
        Wanted::Throw(ErrorClass::TypeError),
    ),
    (
        Row::Byte,
        Sample::Text("7"),
        Wanted::Outside(OutsideKind::TextNumber),
    ),
    (
        Row::Byte,
        Sample::Object(0),
        Wanted::Outside(OutsideKind::ToPrimitive),
    ),
    (
        Row::Text,
        Sample::Undefined,
        Wanted::Value(Sample::Text("undefined")),
    ),
    (Row::Text, Sample::Null, Wanted::Value(Sample::Text("null"))),
    (
        Row::Text,
        Sample::Bool(false),
        Wanted::Value(Sample::Text("false")),
    ),
    (
        Row::Text,
        Sample::Bool(true),
        Wanted::Value(Sample::Text("true")),
    ),
    (
        Row::Text,
        Sample::Number(0),
        Wanted::Value(Sample::Text("0")),
    ),
    (
        Row::Text,
        Sample::Number(-5),
        Wanted::Value(Sample::Text("-5")),
    ),
    (
        Row::Text,
        Sample::Number(9_007_199_254_740_991),
        Wanted::Value(Sample::Text("9007199254740991")),
    ),
    (
        Row::Text,
        Sample::Number(-9_007_199_254_740_991),
        Wanted::Value(Sample::Text("-9007199254740991")),
    ),
    (
        Row::Text,
        Sample::BigInt(7),
        Wanted::Value(Sample::Text("7")),
    ),
    (
        Row::Text,
        Sample::BigInt(-1),
        Wanted::Value(Sample::Text("-1")),
    ),
    (
        Row::Text,
        Sample::BigInt(170_141_183_460_469_231_731_687_303_715_884_105_727),
        Wanted::Value(Sample::Text("170141183460469231731687303715884105727")),
    ),
    (
        Row::Text,
        Sample::BigInt(i128::MIN),
        Wanted::Value(Sample::Text("-170141183460469231731687303715884105728")),
    ),
    (
        Row::Text,
        Sample::Text("a b"),
        Wanted::Value(Sample::Text("a b")),
    ),
    (Row::Text, Sample::Text(""), Wanted::Value(Sample::Text(""))),
    (
        Row::Text,
        Sample::Object(0),
        Wanted::Outside(OutsideKind::ToPrimitive),
    ),
    (
        Row::Boolean,
        Sample::Undefined,
        Wanted::Value(Sample::Bool(false)),
    ),
    (
        Row::Boolean,
        Sample::Null,
        Wanted::Value(Sample::Bool(false)),
    ),
    (
        Row::Boolean,
        Sample::Bool(false),
        Wanted::Value(Sample::Bool(false)),
    ),
    (
        Row::Boolean,
        Sample::Bool(true),
        Wanted::Value(Sample::Bool(true)),
    ),
    (
        Row::Boolean,
        Sample::Number(0),
        Wanted::Value(Sample::Bool(false)),
    ),
    (
        Row::Boolean,
        Sample::Number(-1),
        Wanted::Value(Sample::Bool(true)),
    ),
    (
        Row::Boolean,
        Sample::Number(9_007_199_254_740_991),
        Wanted::Value(Sample::Bool(true)),
    ),
    (
        Row::Boolean,
        Sample::BigInt(0),
        Wanted::Value(Sample::Bool(false)),
    ),
    (
        Row::Boolean,
        Sample::BigInt(1),
        Wanted::Value(Sample::Bool(true)),
    ),
    (
        Row::Boolean,
        Sample::BigInt(i128::MIN),
        Wanted::Value(Sample::Bool(true)),
    ),
    (
        Row::Boolean,
        Sample::Text(""),
        Wanted::Value(Sample::Bool(false)),
    ),
    (
        Row::Boolean,
        Sample::Text("0"),
        Wanted::Value(Sample::Bool(true)),
    ),
    (
        Row::Boolean,
        Sample::Object(0),
        Wanted::Value(Sample::Bool(true)),
    ),
];

/// ToNumber, with NaN as undefined.
fn number(v: &HostValue) -> Conv<HostValue> {
    match to_number(v) {
        Conv::Value(Some(number)) => Conv::Value(HostValue::Number(number)),
        Conv::Value(None) => Conv::Value(HostValue::Undefined),
        Conv::Throw(class) => Conv::Throw(class),
        Conv::Outside(kind) => Conv::Outside(kind),
    }
}

/// A number of 32 bits as a Number.
fn of_u32(answer: Conv<u32>) -> Conv<HostValue> {
    match answer {
        Conv::Value(number) => Conv::Value(HostValue::Number(i64::from(number))),
        Conv::Throw(class) => Conv::Throw(class),
        Conv::Outside(kind) => Conv::Outside(kind),
    }
}

/// A number of 64 bits as a BigInt.
fn of_u64(answer: Conv<u64>) -> Conv<HostValue> {
    match answer {
        Conv::Value(number) => Conv::Value(HostValue::BigInt(i128::from(number))),
        Conv::Throw(class) => Conv::Throw(class),
        Conv::Outside(kind) => Conv::Outside(kind),
    }
}

/// A byte as a Number.
fn of_byte(answer: Conv<u8>) -> Conv<HostValue> {
    match answer {
        Conv::Value(number) => Conv::Value(HostValue::Number(i64::from(number))),
        Conv::Throw(class) => Conv::Throw(class),
        Conv::Outside(kind) => Conv::Outside(kind),
    }
}

/// ToString.
fn text(alloc: Global, v: &HostValue) -> Result<Conv<HostValue>, AllocError> {
    match to_text(alloc, v)? {
        Conv::Value(text) => Ok(Conv::Value(HostValue::Text(text))),
        Conv::Throw(class) => Ok(Conv::Throw(class)),
        Conv::Outside(kind) => Ok(Conv::Outside(kind)),
    }
}

/// What a row gives for a value.
fn given(alloc: Global, row: Row, v: &HostValue) -> Result<Conv<HostValue>, AllocError> {
    match row {
        Row::Number => Ok(number(v)),
        Row::Int32 => Ok(of_u32(to_int32(v))),
        Row::BigInt64 => Ok(of_u64(to_big_int64(v))),
        Row::EnforceRange => Ok(of_u32(enforce_u32(v))),
        Row::Index => Ok(of_u64(to_index(v))),
        Row::Byte => Ok(of_byte(to_byte(v))),
        Row::Text => text(alloc, v),
        Row::Boolean => Ok(Conv::Value(HostValue::Bool(to_boolean(v)))),
    }
}

/// Whether a cell is as it is wanted.
fn holds(alloc: Global, cell: &(Row, Sample, Wanted)) -> Result<bool, AllocError> {
    let value = value_of(alloc, cell.1)?;
    let answer = given(alloc, cell.0, &value)?;
    Ok(is_wanted(&answer, cell.2))
}

#[test]
fn each_cell_of_the_conversions(rt: HostRuntime) -> Result<(), Fail> {
    let alloc = rt.alloc();
    for cell in CELLS.iter() {
        assert!(rt; holds(alloc, cell)?, "a conversion");
    }
    Ok(())
}
