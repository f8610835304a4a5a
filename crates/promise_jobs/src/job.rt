//! Jobs of promises (ECMA-262, section 27.2.2).

use host_values::{HostValue, ObjId};

/// What a reaction does with the end of its promise.
#[derive(Clone, Copy, PartialEq, Eq, Debug)]
pub enum Handler {
    /// Passes the value or the reason on.
    Pass,
    /// Calls this function.
    Call(ObjId),
    /// Resumes the suspended computation of this number.
    Resume(u64),
}

/// How a promise was settled.
#[derive(Clone, Copy, PartialEq, Eq, Debug)]
pub enum Settled {
    Fulfilled,
    Rejected,
}

/// A job.
#[derive(PartialEq, Eq, Debug, Drop)]
pub enum Job {
    /// A reaction of a promise that was settled (section 27.2.2.1). `derived` is the pair of the derived promise.
    React {
        handler: Handler,
        how: Settled,
        value: HostValue,
        derived: Option<u64>,
    },
    /// The call of the `then` of `object` with the two functions of `pair` (section 27.2.2.2). `then` is none exactly where the object
    /// is a promise, whose `then` is the built-in one.
    Thenable {
        pair: u64,
        object: HostValue,
        then: Option<ObjId>,
    },
}
