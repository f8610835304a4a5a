//! Members: one function for each kind of object. What a kind, a key and its answer are together stands in `of_object` and
//! `write_to` alone.
ghost use Rattle.std.specs.Prelude.{◌≡◌, ◌≤◌, IfOk};
ghost use Rattle.std.specs.List.{list_any};
ghost use Rattle.host_values.specs.Members as spec;

use crate::answers::{Got, Put};
use crate::keys::Key;
use crate::kinds::{Callee, Kind};
use crate::objects::Stored;
use crate::values::{ErrorClass, HostValue};
use embed_base::limits::{GREATEST_NUMBER, MOST_ELEMENTS};
use embed_base::{OutsideKind, SharedString};
use indexmap::IndexMap;
use std::alloc::{AllocError, Global};

// The names that plain objects inherit from Object.prototype.
const INHERITED_NAMES: [&str; 12] = [
    "constructor",
    "hasOwnProperty",
    "isPrototypeOf",
    "propertyIsEnumerable",
    "toLocaleString",
    "toString",
    "valueOf",
    "__proto__",
    "__defineGetter__",
    "__defineSetter__",
    "__lookupGetter__",
    "__lookupSetter__",
];

/// Whether a key is one of these names.
fn is_among(names: &[&str], key: &Key) -> bool
    ensures { result ≡ list_any (λ name. spec.is_name key.now name.now) names.now }
{
    names.iter().any(|name| key.is_name(name))
}

/// Whether a key is a name that plain objects inherit.
fn is_inherited(key: &Key) -> bool
    ensures { result ≡ spec.is_inherited key.now }
{
    is_among(&INHERITED_NAMES, key)
}

/// The UTF-16 code units that a byte of UTF-8 begins.
fn units_of_byte(byte: u8) -> u64
    ensures value { result ≡ spec.units_of_byte byte }
    ensures bound { result ≤ 2 }
{
    if byte < 128 {
        1
    } else if byte < 192 {
        0
    } else if byte < 240 {
        1
    } else {
        2
    }
}

/// How many UTF-16 code units a text has.
fn utf16_length(text: &[u8]) -> u128
    ensures { result ≡ spec.utf16_length text.now }
{
    let mut units = 0_u128;
    for byte in text {
        units += u128::from(units_of_byte(*byte));
    }
    units
}

/// A length as a Number.
fn of_length(length: u128) -> Got
    ensures { result ≡ spec.length_member length }
{
    if length <= u128::from(GREATEST_NUMBER) {
        Got::Value(HostValue::Number(length as i64))
    } else {
        Got::Outside(OutsideKind::Number)
    }
}

/// A member of a text.
pub fn of_text(text: &SharedString, key: &Key) -> Got
    ensures { result ≡ spec.text_member text.now key.now }
{
    if key.is_name("length") {
        of_length(utf16_length(text.as_str().as_bytes()))
    } else {
        Got::Outside(OutsideKind::PrimitiveMember)
    }
}

/// An own property, or what stands in for one that isn't there.
fn own_or(absent: Got, properties: &IndexMap<Key, HostValue>, key: &Key) -> Result<Got, AllocError>
    ensures { IfOk result (λ got. got ≡ spec.own_or absent properties.now.entries key.now) }
{
    match properties.get(key) {
        Some(value) => {
            let value = value.clone()?;
            Ok(Got::Value(value))
        }
        None => Ok(absent),
    }
}

/// A member of a plain object.
fn of_plain(properties: &IndexMap<Key, HostValue>, key: &Key) -> Result<Got, AllocError>
    ensures { IfOk result (λ got. got ≡ spec.plain_member properties.now.entries key.now) }
{
    let absent = if is_inherited(key) {
        Got::Outside(OutsideKind::Inherited)
    } else {
        Got::Value(HostValue::Undefined)
    };
    own_or(absent, properties, key)
}

/// A member of an exports object.
fn of_exports(properties: &IndexMap<Key, HostValue>, key: &Key) -> Result<Got, AllocError>
    ensures { IfOk result (λ got. got ≡ spec.exports_member properties.now.entries key.now) }
{
    own_or(Got::Value(HostValue::Undefined), properties, key)
}

/// A member of an Array.
fn of_array(properties: &IndexMap<Key, HostValue>, key: &Key) -> Result<Got, AllocError>
    ensures { IfOk result (λ got. got ≡ spec.array_member properties.now.entries key.now) }
{
    match key {
        Key::Index(_) => own_or(Got::Value(HostValue::Undefined), properties, key),
        Key::Name(name) => Ok(of_array_name(properties.len() as u128, name.as_str())),
    }
}

/// A member of an Array of so many elements that is no element.
fn of_array_name(len: u128, name: &str) -> Got
    ensures { result ≡ spec.array_name_member len name.now }
{
    if name == "length" {
        of_length(len)
    } else if name == "push" {
        Got::Outside(OutsideKind::BuiltinValue)
    } else {
        Got::Outside(OutsideKind::ArrayMember)
    }
}

/// The length of a function.
fn callee_length(callee: Callee) -> Got
    ensures { result ≡ spec.callee_length callee }
{
    match callee {
        Callee::Script { length, .. } => Got::Value(HostValue::Number(i64::from(length))),
        Callee::Print => Got::Value(HostValue::Number(0)),
        Callee::Exported(_) | Callee::Promising(_) => Got::Interface,
        Callee::Resolve(_) | Callee::Reject(_) => Got::Value(HostValue::Number(1)),
    }
}

/// A member of a function.
fn of_function(callee: Callee, key: &Key) -> Got
    ensures { result ≡ spec.function_member callee key.now }
{
    if key.is_name("length") {
        callee_length(callee)
    } else {
        Got::Outside(OutsideKind::FunctionMember)
    }
}

/// A member of an error.
fn of_error(
    alloc: Global,
    class: ErrorClass,
    message: &SharedString,
    key: &Key,
) -> Result<Got, AllocError>
    ensures { IfOk result (λ got. got ≡ spec.error_member class message.now key.now) }
{
    if key.is_name("name") {
        let name = SharedString::from_str(alloc, class.name())?;
        Ok(Got::Value(HostValue::Text(name)))
    } else if key.is_name("message") {
        let message = message.clone()?;
        Ok(Got::Value(HostValue::Text(message)))
    } else {
        Ok(Got::Outside(OutsideKind::ObjectMember))
    }
}

/// A member of a promise.
fn of_promise(key: &Key) -> Got
    ensures { result ≡ spec.promise_member key.now }
{
    if key.is_name("then") || key.is_name("catch") {
        Got::Outside(OutsideKind::BuiltinValue)
    } else {
        Got::Outside(OutsideKind::ObjectMember)
    }
}

/// A member of an object.
pub fn of_object(alloc: Global, object: &Stored, key: &Key) -> Result<Got, AllocError>
    ensures { IfOk result (λ got. got ≡ spec.member_of object.now.kind object.now.properties key.now) }
{
    match object.kind() {
        Kind::Plain => of_plain(object.properties(), key),
        Kind::Exports => of_exports(object.properties(), key),
        Kind::Array => of_array(object.properties(), key),
        Kind::Error { class, message } => of_error(alloc, *class, message, key),
        Kind::Function(callee) => Ok(of_function(*callee, key)),
        Kind::Promise(_) => Ok(of_promise(key)),
        Kind::Module(_) | Kind::Suspending(_) => Ok(Got::Outside(OutsideKind::ObjectMember)),
        Kind::Buffer(_) | Kind::View { .. } | Kind::Instance { .. } => Ok(Got::Interface),
        Kind::Memory(_) | Kind::Table(_) | Kind::Global(_) => Ok(Got::Interface),
    }
}

/// Writing a member of a plain object.
fn write_to_plain(key: &Key) -> Put
    ensures { result ≡ spec.plain_write key.now }
{
    if key.is_name("__proto__") {
        Put::Outside(OutsideKind::Inherited)
    } else {
        Put::Done
    }
}

/// Writing a member of an Array.
fn write_to_array(properties: &IndexMap<Key, HostValue>, key: &Key) -> Put
    ensures { result ≡ spec.array_write properties.now.entries key.now }
{
    match key {
        Key::Index(index) => write_at(properties.len(), *index as usize),
        Key::Name(_) => Put::Outside(OutsideKind::ArrayMember),
    }
}

/// Writing an element of an Array of so many elements.
fn write_at(len: usize, index: usize) -> Put
    ensures { result ≡ spec.element_write len index }
{
    if index < len {
        Put::Done
    } else if len < index {
        Put::Outside(OutsideKind::ArrayHole)
    } else if len < MOST_ELEMENTS as usize {
        Put::Done
    } else {
        Put::Outside(OutsideKind::ArraySize)
    }
}

/// Writing a member of an object.
pub fn write_to(object: &Stored, key: &Key) -> Put
    ensures { result ≡ spec.write_to object.now.kind object.now.properties key.now }
{
    match object.kind() {
        Kind::Plain => write_to_plain(key),
        Kind::Exports => Put::Throw(ErrorClass::TypeError),
        Kind::Array => write_to_array(object.properties(), key),
        Kind::Global(_) | Kind::View { .. } => Put::Interface,
        _ => Put::Outside(OutsideKind::ObjectWrite),
    }
}
