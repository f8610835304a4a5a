//! Calls of predefined objects with `new`.

use crate::samples::{CONSTRUCT, Sample, TO_PRIMITIVE, TYPE_ERROR, Wanted, arguments, is_wanted};
use host_builtins::construct;
use host_values::{Class, ErrorClass, Heap};
use std::alloc::{AllocError, Global};
use std::test::Fail;

/// A predefined object, its only argument, and what `new` of it comes to.
type Case = (Class, Option<Sample>, Wanted);

/// `new` of each predefined object. Object 0 is `print`.
static CONSTRUCTIONS: [Case; 29] = [
    (Class::Print, None, CONSTRUCT),
    (Class::Readbuffer, None, CONSTRUCT),
    (Class::Utf8Text, None, CONSTRUCT),
    (Class::Object, None, CONSTRUCT),
    (Class::BigInt, None, CONSTRUCT),
    (Class::Number, None, CONSTRUCT),
    (Class::String, None, CONSTRUCT),
    (Class::BigInt, Some(Sample::Number(1)), CONSTRUCT),
    (Class::WebAssembly, None, TYPE_ERROR),
    (Class::Promise, None, Wanted::Interface),
    (Class::Uint8Array, None, Wanted::Interface),
    (Class::Module, None, Wanted::Interface),
    (Class::Instance, None, Wanted::Interface),
    (Class::Memory, None, Wanted::Interface),
    (Class::Table, None, Wanted::Interface),
    (Class::Global, None, Wanted::Interface),
    (Class::Suspending, None, Wanted::Interface),
    (Class::Error, None, Wanted::Error(ErrorClass::Error, "")),
    (
        Class::Error,
        Some(Sample::Undefined),
        Wanted::Error(ErrorClass::Error, ""),
    ),
    (Class::Error, Some(Sample::Object(0)), TO_PRIMITIVE),
    (
        Class::Error,
        Some(Sample::Text("m")),
        Wanted::Error(ErrorClass::Error, "m"),
    ),
    (
        Class::TypeError,
        Some(Sample::Text("m")),
        Wanted::Error(ErrorClass::TypeError, "m"),
    ),
    (
        Class::RangeError,
        Some(Sample::Text("m")),
        Wanted::Error(ErrorClass::RangeError, "m"),
    ),
    (
        Class::ReferenceError,
        Some(Sample::Text("m")),
        Wanted::Error(ErrorClass::ReferenceError, "m"),
    ),
    (
        Class::SyntaxError,
        Some(Sample::Text("m")),
        Wanted::Error(ErrorClass::SyntaxError, "m"),
    ),
    (
        Class::CompileError,
        Some(Sample::Text("m")),
        Wanted::Error(ErrorClass::CompileError, "m"),
    ),
    (
        Class::LinkError,
        Some(Sample::Text("m")),
        Wanted::Error(ErrorClass::LinkError, "m"),
    ),
    (
        Class::RuntimeError,
        Some(Sample::Text("m")),
        Wanted::Error(ErrorClass::RuntimeError, "m"),
    ),
    (
        Class::SuspendError,
        Some(Sample::Text("m")),
        Wanted::Error(ErrorClass::SuspendError, "m"),
    ),
];

/// Whether `new` comes to what is wanted.
fn comes_to(alloc: Global, case: &Case) -> Result<bool, AllocError> {
    let mut heap = Heap::new(alloc, 0)?;
    let args = arguments(alloc, case.1)?;
    let reply = construct(alloc, &mut heap, case.0, &args)?;
    Ok(is_wanted(&heap, 1, &reply, case.2))
}

#[test]
fn constructions(rt: HostRuntime) -> Result<(), Fail> {
    let alloc = rt.alloc();
    for case in CONSTRUCTIONS.iter() {
        assert!(rt; comes_to(alloc, case)?, "a construction");
    }
    Ok(())
}
