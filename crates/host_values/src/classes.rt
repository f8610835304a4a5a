//! Predefined names, and what a method is called on.

use crate::values::ObjId;

/// The predefined names, and those members of `WebAssembly` that can be constructed or have members.
#[derive(Clone, Copy, PartialEq, Eq, Debug)]
pub enum Class {
    Print,
    Readbuffer,
    Utf8Text,
    Object,
    BigInt,
    Number,
    String,
    Promise,
    Uint8Array,
    Error,
    TypeError,
    RangeError,
    ReferenceError,
    SyntaxError,
    WebAssembly,
    Module,
    Instance,
    Memory,
    Table,
    Global,
    Suspending,
    CompileError,
    LinkError,
    RuntimeError,
    SuspendError,
}

/// What a method is called on: an object of the heap, or a predefined one.
#[derive(Clone, Copy, PartialEq, Eq, Debug)]
pub enum Target {
    Object(ObjId),
    Builtin(Class),
}
