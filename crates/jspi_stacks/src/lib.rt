//! The stack of a run: frames of the script and of its modules, and marks where one side calls the other.
#![tactic(auto)]

mod frame;
mod mark;
mod stack;

pub use frame::Frame;
pub use mark::Mark;
pub use stack::Stack;
