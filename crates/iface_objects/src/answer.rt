//! What the calls of the interface come to.

use embed_base::OutsideKind;
use host_values::{ErrorClass, HostValue, ObjId};
use wasm_syntax::FuncAddr;

/// What a call comes to.
#[derive(Debug, Drop)]
pub enum Answer {
    /// It gives this value.
    Value(HostValue),
    /// It throws a new error of this class, without a message.
    Throw(ErrorClass),
    /// An instance was made whose start function is to run; its object is the value once that has ended.
    Start {
        func: FuncAddr,
        instance: ObjId,
    },
    /// The run ends with a named refusal: at a byte of a module, or at the place of the call.
    Outside {
        kind: OutsideKind,
        module_place: Option<u64>,
    },
}
