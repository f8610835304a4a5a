//! ToWebAssemblyValue of each kind of value at each type, and ToJSValue of each value.

use crate::realm::Realm;
use crate::samples::{Sample, value_of};
use embed_base::OutsideKind;
use host_values::{Callee, ErrorClass, HostValue, Kind, ObjId};
use iface_caches::{Conversion, ExternalKind};
use std::alloc::{AllocError, Global};
use std::test::Fail;
use wasm_syntax::{ExternAddr, FuncAddr, ValType, Value};

/// What is wanted of a conversion.
#[derive(Clone, Copy)]
enum Wanted {
    Value(Value),
    TypeError,
    Outside(OutsideKind),
}

/// Whether an answer is what is wanted.
fn is_wanted(answer: &Option<Result<Value, Conversion>>, wanted: Wanted) -> bool {
    match (answer, wanted) {
        (Some(Ok(value)), Wanted::Value(other)) => *value == other,
        (Some(Err(Conversion::Throw(class))), Wanted::TypeError) => {
            *class == ErrorClass::TypeError
        }
        (Some(Err(Conversion::Outside(kind))), Wanted::Outside(other)) => *kind == other,
        _ => false,
    }
}

/// A value, a type, and what it is converted to. The objects are those of `with_objects`.
type Case = (Sample, ValType, Wanted);

const I32: ValType = ValType::I32;

const I64: ValType = ValType::I64;

const FUNC: ValType = ValType::FuncRef;

const EXTERN: ValType = ValType::ExternRef;

/// Conversions to integers.
static INTEGERS: [Case; 26] = [
    (Sample::Undefined, I32, Wanted::Value(Value::I32(0))),
    (Sample::Null, I32, Wanted::Value(Value::I32(0))),
    (Sample::Bool(false), I32, Wanted::Value(Value::I32(0))),
    (Sample::Bool(true), I32, Wanted::Value(Value::I32(1))),
    (Sample::Number(5), I32, Wanted::Value(Value::I32(5))),
    (
        Sample::Number(-1),
        I32,
        Wanted::Value(Value::I32(4_294_967_295)),
    ),
    (
        Sample::Number(2_147_483_648),
        I32,
        Wanted::Value(Value::I32(2_147_483_648)),
    ),
    (
        Sample::Number(4_294_967_301),
        I32,
        Wanted::Value(Value::I32(5)),
    ),
    (Sample::BigInt(5), I32, Wanted::TypeError),
    (
        Sample::Text("5"),
        I32,
        Wanted::Outside(OutsideKind::TextNumber),
    ),
    (
        Sample::Object(0),
        I32,
        Wanted::Outside(OutsideKind::ToPrimitive),
    ),
    (
        Sample::Object(2),
        I32,
        Wanted::Outside(OutsideKind::ToPrimitive),
    ),
    (Sample::Undefined, I64, Wanted::TypeError),
    (Sample::Null, I64, Wanted::TypeError),
    (Sample::Bool(false), I64, Wanted::Value(Value::I64(0))),
    (Sample::Bool(true), I64, Wanted::Value(Value::I64(1))),
    (Sample::Number(5), I64, Wanted::TypeError),
    (Sample::Number(0), I64, Wanted::TypeError),
    (Sample::BigInt(5), I64, Wanted::Value(Value::I64(5))),
    (
        Sample::BigInt(-1),
        I64,
        Wanted::Value(Value::I64(18_446_744_073_709_551_615)),
    ),
    (
        Sample::BigInt(9_223_372_036_854_775_808),
        I64,
        Wanted::Value(Value::I64(9_223_372_036_854_775_808)),
    ),
    (
        Sample::BigInt(18_446_744_073_709_551_621),
        I64,
        Wanted::Value(Value::I64(5)),
    ),
    (
        Sample::Text("5"),
        I64,
        Wanted::Outside(OutsideKind::TextNumber),
    ),
    (
        Sample::Object(0),
        I64,
        Wanted::Outside(OutsideKind::ToPrimitive),
    ),
    (
        Sample::Object(1),
        I64,
        Wanted::Outside(OutsideKind::ToPrimitive),
    ),
    (
        Sample::Object(2),
        I64,
        Wanted::Outside(OutsideKind::ToPrimitive),
    ),
];

/// Conversions to references. A value of the host has the next address where it has none.
static REFERENCES: [Case; 27] = [
    (Sample::Undefined, FUNC, Wanted::TypeError),
    (Sample::Null, FUNC, Wanted::Value(Value::FuncNull)),
    (Sample::Bool(true), FUNC, Wanted::TypeError),
    (Sample::Number(0), FUNC, Wanted::TypeError),
    (Sample::BigInt(0), FUNC, Wanted::TypeError),
    (Sample::Text("f"), FUNC, Wanted::TypeError),
    (Sample::Object(0), FUNC, Wanted::TypeError),
    (Sample::Object(1), FUNC, Wanted::TypeError),
    (
        Sample::Object(2),
        FUNC,
        Wanted::Value(Value::Func(FuncAddr(9))),
    ),
    (Sample::Object(3), FUNC, Wanted::TypeError),
    (Sample::Object(4), FUNC, Wanted::TypeError),
    (Sample::Object(5), FUNC, Wanted::TypeError),
    (Sample::Object(6), FUNC, Wanted::TypeError),
    (Sample::Object(7), FUNC, Wanted::TypeError),
    (
        Sample::Undefined,
        EXTERN,
        Wanted::Value(Value::Extern(ExternAddr(0))),
    ),
    (Sample::Null, EXTERN, Wanted::Value(Value::ExternNull)),
    (
        Sample::Bool(true),
        EXTERN,
        Wanted::Value(Value::Extern(ExternAddr(1))),
    ),
    (
        Sample::Number(0),
        EXTERN,
        Wanted::Value(Value::Extern(ExternAddr(2))),
    ),
    (
        Sample::BigInt(0),
        EXTERN,
        Wanted::Value(Value::Extern(ExternAddr(3))),
    ),
    (
        Sample::Text("f"),
        EXTERN,
        Wanted::Value(Value::Extern(ExternAddr(4))),
    ),
    (
        Sample::Object(0),
        EXTERN,
        Wanted::Value(Value::Extern(ExternAddr(5))),
    ),
    (
        Sample::Object(2),
        EXTERN,
        Wanted::Value(Value::Extern(ExternAddr(6))),
    ),
    (
        Sample::Number(0),
        EXTERN,
        Wanted::Value(Value::Extern(ExternAddr(2))),
    ),
    (
        Sample::Text("f"),
        EXTERN,
        Wanted::Value(Value::Extern(ExternAddr(4))),
    ),
    (
        Sample::Object(0),
        EXTERN,
        Wanted::Value(Value::Extern(ExternAddr(5))),
    ),
    (
        Sample::Undefined,
        EXTERN,
        Wanted::Value(Value::Extern(ExternAddr(0))),
    ),
    (Sample::Null, EXTERN, Wanted::Value(Value::ExternNull)),
];

/// Objects: 0 is `print`, 1 plain, 2 the Exported Function of the address 9, 3 a function of the script, 4 what `promising` gave for
/// that address, 5 a resolving function, 6 the Memory object of the address 9, and 7 an object round 2 that suspends.
fn with_objects(alloc: Global) -> Result<Realm, AllocError> {
    let mut realm = Realm::new(alloc)?;
    realm.add(alloc, Kind::Plain)?;
    realm.make(alloc, ExternalKind::Function, 9)?;
    realm.add(
        alloc,
        Kind::Function(Callee::Script {
            function: 0,
            length: 1,
        }),
    )?;
    realm.add(alloc, Kind::Function(Callee::Promising(FuncAddr(9))))?;
    realm.add(alloc, Kind::Function(Callee::Resolve(0)))?;
    realm.make(alloc, ExternalKind::Memory, 9)?;
    realm.add(alloc, Kind::Suspending(ObjId(2)))?;
    Ok(realm)
}

/// Whether a case gives what is wanted.
fn gives(realm: &mut Realm, alloc: Global, case: &Case) -> bool {
    match value_of(alloc, case.0) {
        Ok(value) => {
            let answer = realm.to_wasm(alloc, &value, case.1);
            is_wanted(&answer, case.2)
        }
        Err(_) => false,
    }
}

/// Whether each case gives what is wanted.
fn give(realm: &mut Realm, alloc: Global, cases: &[Case]) -> bool {
    for case in cases {
        if !gives(realm, alloc, case) {
            return false;
        }
    }
    true
}

fn integers(alloc: Global) -> Result<bool, AllocError> {
    let mut realm = with_objects(alloc)?;
    Ok(give(&mut realm, alloc, &INTEGERS))
}

#[test]
fn conversions_to_integers(rt: HostRuntime) -> Result<(), Fail> {
    assert!(rt; integers(rt.alloc())?, "each value");
    Ok(())
}

fn references(alloc: Global) -> Result<bool, AllocError> {
    let mut realm = with_objects(alloc)?;
    Ok(give(&mut realm, alloc, &REFERENCES))
}

#[test]
fn conversions_to_references(rt: HostRuntime) -> Result<(), Fail> {
    assert!(rt; references(rt.alloc())?, "each value");
    Ok(())
}

/// Values of a module, and what a script gets.
static SHOWN: [(Value, Sample); 14] = [
    (Value::I32(0), Sample::Number(0)),
    (Value::I32(2_147_483_647), Sample::Number(2_147_483_647)),
    (Value::I32(2_147_483_648), Sample::Number(-2_147_483_648)),
    (Value::I32(4_294_967_295), Sample::Number(-1)),
    (Value::I64(0), Sample::BigInt(0)),
    (
        Value::I64(9_223_372_036_854_775_807),
        Sample::BigInt(9_223_372_036_854_775_807),
    ),
    (
        Value::I64(9_223_372_036_854_775_808),
        Sample::BigInt(-9_223_372_036_854_775_808),
    ),
    (Value::I64(18_446_744_073_709_551_615), Sample::BigInt(-1)),
    (Value::FuncNull, Sample::Null),
    (Value::ExternNull, Sample::Null),
    (Value::Func(FuncAddr(9)), Sample::Object(2)),
    (Value::Func(FuncAddr(3)), Sample::Object(8)),
    (Value::Func(FuncAddr(9)), Sample::Object(2)),
    (Value::Func(FuncAddr(3)), Sample::Object(8)),
];

/// Whether each value of a module is shown as its sample.
fn show(realm: &mut Realm, alloc: Global) -> bool {
    for case in SHOWN.iter() {
        if !realm.shows(alloc, case.0, case.1) {
            return false;
        }
    }
    true
}

/// A reference to a value of the host is shown once the value has its address.
fn shows_a_value_of_the_host(realm: &mut Realm, alloc: Global) -> bool {
    let reference = Value::Extern(ExternAddr(0));
    !realm.has_value(reference)
        && realm.is_extern(alloc, HostValue::Bool(true), 0)
        && realm.shows(alloc, reference, Sample::Bool(true))
}

fn shown(alloc: Global) -> Result<bool, AllocError> {
    let mut realm = with_objects(alloc)?;
    Ok(show(&mut realm, alloc) && shows_a_value_of_the_host(&mut realm, alloc))
}

#[test]
fn values_of_modules_as_values_of_scripts(rt: HostRuntime) -> Result<(), Fail> {
    assert!(rt; shown(rt.alloc())?, "each value");
    Ok(())
}
