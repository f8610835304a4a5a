//! What calls come to.

use embed_base::OutsideKind;
use host_values::{ErrorClass, HostValue};

/// What a call of a predefined object comes to.
#[derive(PartialEq, Eq, Debug, Drop)]
pub enum Reply {
    Value(HostValue),
    /// An error of this class is thrown.
    Throw(ErrorClass),
    /// The script leaves the profile.
    Outside(OutsideKind),
    /// The WebAssembly JavaScript Interface answers, from more than the heap, or the promises do. The heap is as it was.
    Interface,
}
