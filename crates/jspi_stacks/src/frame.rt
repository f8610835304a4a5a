//! The entries of a stack.

use crate::mark::Mark;
use host_machine::HostFrame;
use wasm_machine::WasmFrame;

/// An entry of a stack: a function of the script, or the script itself, a function of a module, or what stands between two of them.
#[derive(Drop)]
pub enum Frame {
    Host(HostFrame),
    Wasm(WasmFrame),
    Mark(Mark),
}
