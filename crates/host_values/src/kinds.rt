//! Kinds of objects.

use crate::values::{ErrorClass, ObjId};
use embed_base::SharedString;
use wasm_syntax::{FuncAddr, GlobalAddr, MemAddr, ModuleAddr, TableAddr};

/// What a call of a function object runs.
#[derive(Clone, Copy, PartialEq, Eq, Debug)]
pub enum Callee {
    /// A function of the script, with its number of parameters.
    Script { function: u32, length: u32 },
    /// The global function `print`.
    Print,
    /// A function of a store (an Exported Function of the JavaScript Interface).
    Exported(FuncAddr),
    /// What `WebAssembly.promising` gave for a function of a store.
    Promising(FuncAddr),
    /// The resolving function of a pair.
    Resolve(u64),
    /// The rejecting function of a pair.
    Reject(u64),
}

/// What an object is, beside its properties.
#[derive(PartialEq, Eq, Debug, Drop)]
pub enum Kind {
    /// An object of an object literal, or one that the interface makes in this form.
    Plain,
    /// A frozen object with the exports of an instance.
    Exports,
    /// An Array. Its elements are its properties.
    Array,
    Error {
        class: ErrorClass,
        message: SharedString,
    },
    Function(Callee),
    /// The promise of this number.
    Promise(u64),
    /// The ArrayBuffer of this number.
    Buffer(u64),
    /// A Uint8Array over a buffer object: its first byte there, and how many.
    View {
        buffer: ObjId,
        from: u64,
        len: u64,
    },
    Module(ModuleAddr),
    Instance {
        exports: ObjId,
    },
    Memory(MemAddr),
    Table(TableAddr),
    Global(GlobalAddr),
    /// A Suspending object round a callable one.
    Suspending(ObjId),
}
