//! Instantiation of a module in a store (WebAssembly Core 2.0, section 4.5.4): all that it holds is allocated, and its active segments
//! are written. The caller then calls its start function.
#![tactic(auto)]

mod allocate;
mod constants;
mod modules;
mod segments;

pub use modules::{Instantiated, instantiate};
