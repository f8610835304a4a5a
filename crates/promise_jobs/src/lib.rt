//! Promises and their jobs (ECMA-262, sections 27.2 and 9.5): states, pairs of resolving functions, and the queue.
#![tactic(auto)]

mod job;
pub mod laws;
mod promises;
mod state;
mod thenable;

pub use job::{Handler, Job, Settled};
pub use promises::Promises;
