//! The tree of a script.
#![tactic(auto)]

mod chain;
mod instance;
mod parser;
mod reader;
mod script;

pub use parser::{parse, parses_once};
pub use script::{Form, Node, NodeId, Operand, Operator, ParseError, Script};
