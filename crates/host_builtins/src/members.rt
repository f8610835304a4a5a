//! What predefined objects have as members.

use host_values::Class;

/// What a member of a predefined object is.
#[derive(Clone, Copy, PartialEq, Eq, Debug)]
pub enum Member {
    /// A predefined object of its own, which has members or makes objects.
    Class(Class),
    /// A function, which is called and is no value.
    Function,
}
