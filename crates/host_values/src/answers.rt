//! Answers of reads and writes of members.

use crate::values::{ErrorClass, HostValue};
use embed_base::OutsideKind;

/// What reading a member gives.
#[derive(PartialEq, Eq, Debug, Drop)]
pub enum Got {
    Value(HostValue),
    /// An error of this class is thrown.
    Throw(ErrorClass),
    /// The script leaves the profile.
    Outside(OutsideKind),
    /// The WebAssembly JavaScript Interface answers, from more than the heap.
    Interface,
}

/// What writing a member does.
#[derive(Clone, Copy, PartialEq, Eq, Debug)]
pub enum Put {
    /// The member has the value.
    Done,
    /// An error of this class is thrown.
    Throw(ErrorClass),
    /// The script leaves the profile.
    Outside(OutsideKind),
    /// The WebAssembly JavaScript Interface does the write.
    Interface,
}
