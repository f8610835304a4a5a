//! Which token may stand where in a script: the states of its reader, without what was read, and the place at which tokens
//! are refused.
#![tactic(auto)]

mod expressions;
mod reader;
mod refusal;
mod stack;
mod state;
mod statements;

pub use reader::Reader;
pub use refusal::{Refusal, refusal_of};
pub use state::Move;
