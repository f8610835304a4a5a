//! The run of a script with its modules: its configurations, the one rewriting of each, and what it comes to. The turns of a machine are
//! tied to them by the lemmas in `proofs/`.
#![tactic(auto)]

mod end;
pub mod laws;
mod machine;
mod start;

pub use end::{End, Turn};
pub use machine::Machine;
