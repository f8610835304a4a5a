//! What a reference is bound to.

ghost use Rattle.std.specs.Prelude.{◌≡◌};
ghost use Rattle.host_parser.specs.Names as names;

use crate::predefined::{Predefined, predefined_of};

/// A binding by its number among those of its kind, and whether it is a constant.
#[derive(Clone, Copy, PartialEq, Eq, Debug)]
pub struct Slot {
    pub number: u64,
    pub constant: bool,
}

/// What a reference to a name is bound to (ECMA-262, section 9.1.2.1): a global binding, where the script's functions have the first numbers
/// and its other declarations the next, each in the order of the text; a local of the function or of the top level at work, numbered through
/// the scopes that are open, the outermost first; a name that
/// no declaration binds and that is predefined; or nothing at all. Predefined names are bound here, as all others are, so that none is
/// looked up by its text when the script runs.
#[derive(Clone, Copy, PartialEq, Eq, Debug)]
pub enum Binding {
    Global(Slot),
    Local(Slot),
    Predefined(Predefined),
    Unknown,
}

/// What a name is bound to that no declaration binds.
pub fn unbound(name: &str) -> Binding
    ensures { result ≡ names.unbound name.now }
{
    match predefined_of(name) {
        Some(predefined) => Binding::Predefined(predefined),
        None => Binding::Unknown,
    }
}
