//! The machine of WebAssembly: frames, which stand for terms of WebAssembly Core 2.0, section 4.4, and their steps.
#![tactic(auto)]

mod charges;
mod control;
mod enter;
mod frame;
mod indirect;
pub mod laws;
mod perform;
mod step;
mod supply;

pub use frame::{Effect, WasmFrame};
