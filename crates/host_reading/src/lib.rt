//! A script from its bytes: its tree, or the line that refuses it.
#![tactic(auto)]

mod reading;
mod refusal;

pub use reading::{Read, read_script};
pub use refusal::{Refusal, refusal_line};
