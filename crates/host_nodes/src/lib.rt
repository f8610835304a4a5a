//! The nodes of a script's tree, and how they are made of its tokens.
#![tactic(auto)]

mod builder;
mod building;
mod declarations;
mod expressions;
mod form;
mod functions;
mod levels;
mod lists;
mod objects;
mod scopes;
mod stack;
mod state;
mod statements;
mod table;
mod words;

pub use builder::Built;
pub use building::build;
pub use form::{
    BinaryOperator, Declaration, Declared, Declares, Form, Function, Key, Mention, Node, NodeId,
    Operand, PrefixOperator, Property, ReferenceId,
};
