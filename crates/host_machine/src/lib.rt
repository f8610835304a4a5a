//! Scripts at work: the frame of a function or of the script itself, a step at a time (ECMA-262, sections 13 to 15, in the profile).
#![tactic(auto)]

mod begin;
mod calls;
mod completion;
mod effect;
mod focus;
mod frame;
mod item;
mod members;
mod names;
mod nodes;
mod operators;
mod parts;
mod reference;
mod resume;
mod start;
mod step;
mod writes;

pub use completion::Completion;
pub use effect::HostEffect;
pub use focus::Focus;
pub use frame::HostFrame;
pub use item::{Item, Sequence};
pub use reference::{Base, Callable, Reference};
