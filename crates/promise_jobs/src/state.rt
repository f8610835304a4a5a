//! States of promises, and pairs of resolving functions.
ghost use Rattle.std.specs.Prelude.{◌≡◌, OnOk, OnErr};
ghost use Rattle.promise_jobs.specs.Promises.{state_with};

use crate::job::{Handler, Settled};
use embed_base::PlainList;
use host_values::HostValue;
use std::alloc::AllocError;

/// A reaction that waits for a promise: what to do with its value and with its reason, and the pair of the derived promise.
#[derive(Clone, Copy, PartialEq, Eq, Debug)]
pub struct Reaction {
    pub ok: Handler,
    pub err: Handler,
    pub derived: Option<u64>,
}

/// The state of a promise. Reactions stand in the order in which they came.
#[derive(Debug, Drop)]
pub enum State {
    Pending(PlainList<Reaction>),
    Settled { how: Settled, value: HostValue },
}

impl State {
    /// Adds a reaction where the promise is pending.
    pub fn add(&mut self, reaction: Reaction) -> Result<(), AllocError>
        ensures ok { OnOk result (self.new ≡ state_with self.old reaction) }
        ensures err { OnErr result (self.new ≡ self.old) }
    {
        match self {
            State::Pending(reactions) => reactions.push(reaction),
            State::Settled { .. } => Ok(()),
        }
    }
}

/// The two resolving functions of a promise, of which the first that is called acts, once.
#[derive(Clone, Copy, PartialEq, Eq, Debug)]
pub struct Pair {
    pub promise: u64,
    pub acted: bool,
}
