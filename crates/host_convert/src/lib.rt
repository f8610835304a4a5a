//! Conversions and operators between values of scripts (ECMA-262, section 7 and 13, and Web IDL, in the profile): each gives a
//! value, the class of an error that is thrown, or a named refusal.
#![tactic(auto)]

mod arithmetic;
mod comparing;
mod conv;
mod joining;
mod numeric;
mod operators;
mod primitives;

pub use arithmetic::{arith, negate};
pub use comparing::compare;
pub use conv::Conv;
pub use joining::{add, to_text};
pub use numeric::{enforce_u32, to_big_int64, to_byte, to_index, to_int32, to_number};
pub use operators::{Arith, Rel};
pub use primitives::{strict_equal, to_boolean};
