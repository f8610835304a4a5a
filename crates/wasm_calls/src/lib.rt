//! Calls of functions of modules, run to their end with a list of frames (WebAssembly Core 2.0, section 4.5.5).
#![tactic(auto)]

mod activations;
mod ending;
pub mod laws;

pub use activations::invoke;
pub use ending::{Ending, Invoked};
