//! Predefined objects and methods of scripts, as far as the heap and the conversions alone decide what they do (ECMA-262, sections 20 to
//! 23, in the profile). All else is the interface's, or the promises'.
#![tactic(auto)]

mod arrays;
mod calls;
mod errors;
pub mod laws;
mod lookup;
mod members;
mod object_keys;
mod primitives;
mod replies;

pub use arrays::push;
pub use calls::{call, call_member, construct};
pub use errors::error;
pub use lookup::{is_method, member};
pub use members::Member;
pub use replies::Reply;
