//! A script's tree from its tokens.
#![tactic(auto)]

mod again;
mod binding;
mod environment;
mod parsing;
mod predefined;
mod resolve;
mod script;

pub use binding::{Binding, Slot};
pub use parsing::{ParseError, parse};
pub use predefined::Predefined;
pub use script::Script;
