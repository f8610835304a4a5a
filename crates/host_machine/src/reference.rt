//! What an expression gives that is no value.

use embed_base::SharedString;
use host_values::{Class, HostValue, ObjId};

/// What an expression refers to that can be called, constructed or asked for a member, and that is no value of the profile (compare
/// ECMA-262, section 6.2.5, the Reference Record).
#[derive(PartialEq, Eq, Debug, Drop)]
pub enum Reference {
    /// A predefined object.
    Class(Class),
    /// A function that is a member of a predefined object.
    Function { class: Class, name: SharedString },
    /// A method of an object.
    Method { object: ObjId, name: SharedString },
}

/// What a member is asked of.
#[derive(PartialEq, Eq, Debug, Drop)]
pub enum Base {
    Value(HostValue),
    Class(Class),
}

/// What is called.
#[derive(PartialEq, Eq, Debug, Drop)]
pub enum Callable {
    Value(HostValue),
    Reference(Reference),
}
