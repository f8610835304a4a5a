//! What stands between the two sides of a call.

use embed_base::PlainList;
use host_values::ObjId;
use wasm_syntax::ValType;

/// What becomes of the end of a call that goes from the script to a module, from a module to the script, or from the run itself to a
/// function. It stands above the side that calls and below the side that is called.
#[derive(Debug, Drop)]
pub enum Mark {
    /// A function of a module was called by the script: its results become a value.
    Call,
    /// A promising function was called: what comes of it settles a promise, by its pair.
    Promising { promise: ObjId, pair: u64 },
    /// A function of the script was called by a module: its value becomes results of these types.
    HostIn { results: PlainList<ValType> },
    /// A suspending function was called: its value becomes a promise, for which the module waits.
    SuspendingIn { results: PlainList<ValType> },
    /// The start function of a module is running, whose instance is the value then.
    Start { instance: ObjId },
    /// The executor of a promise is running.
    Executor { promise: ObjId, pair: u64 },
    /// A `then` is running that a job called.
    Thenable { pair: u64 },
    /// A handler is running that a job called.
    Job { derived: Option<u64> },
}
