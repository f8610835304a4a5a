//! How a turn ends, and a run.

ghost use Rattle.std.specs.Prelude.{◌≡◌, IfOk};

use embed_base::{Outside, PlainString};
use std::alloc::{AllocError, Global};

/// How a run ends.
#[derive(Debug, Drop)]
pub enum End {
    /// All is done.
    Done,
    /// An exception left the script; its shown form.
    Uncaught(PlainString),
    /// Before a rewriting that takes more of the budget than is left.
    Budget { needs: u64, left: u64 },
    /// With a named refusal.
    Refused(Outside),
}

impl End {
    /// The same end once more.
    pub fn copy(&self, alloc: Global) -> Result<End, AllocError>
        ensures { IfOk result (λ copy. copy ≡ self.now) }
    {
        match self {
            End::Done => Ok(End::Done),
            End::Uncaught(text) => Ok(End::Uncaught(PlainString::from_str(alloc, text.as_str())?)),
            End::Budget { needs, left } => Ok(End::Budget {
                needs: *needs,
                left: *left,
            }),
            End::Refused(outside) => Ok(End::Refused(*outside)),
        }
    }
}

/// What a turn comes to.
#[derive(Debug, Drop)]
pub enum Turn {
    /// The run goes on.
    Went,
    /// A line was printed, without its line end.
    Printed(PlainString),
    Ended(End),
}
