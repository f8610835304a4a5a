//! Values and objects of scripts (ECMA-262, sections 6.1 and 10, in the profile): keys, kinds of objects, and the heap with its
//! properties and global bindings. What a kind, a key and its answer are together stands in `members` alone.
#![tactic(auto)]

mod answers;
mod classes;
mod heap;
mod keys;
mod kinds;
pub mod laws;
mod members;
mod objects;
mod shown;
mod values;

pub use answers::{Got, Put};
pub use classes::{Class, Target};
pub use heap::Heap;
pub use keys::Key;
pub use kinds::{Callee, Kind};
pub use values::{ErrorClass, HostValue, ObjId};
