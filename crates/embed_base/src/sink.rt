ghost use Rattle.std.specs.Prelude.{◌≡◌, ℕ, ◌++◌, ◌<◌, ◌≤◌, List, Option, IfOk, OnErr, length, take};
ghost use Rattle.std.specs.Option.{option_map};
ghost use Rattle.embed_base.specs.Counts.{Rose};
ghost use Rattle.embed_base.specs.Answers.{OnFailedWrite, UnlessFailedWrite};

use std::alloc::{AllocError, Global};
use thiserror::Error;

/// Why nothing was written.
#[derive(Clone, Copy, PartialEq, Eq, Debug, Error)]
pub enum SinkError {
    #[error("the output couldn't be written")]
    Failed,
    #[error("out of memory")]
    NoMemory,
}

impl From<AllocError> for SinkError {
    ghost use Rattle.embed_base.specs.declared.sink.SinkError.TheVariants.{NoMemory};
    ghost use Rattle.std.specs.Prelude.{◌≡◌};

    ghost from_gives = { λ _ e. e ≡ NoMemory };

    fn from(_: AllocError) -> Self {
        SinkError::NoMemory
    }
}

/// The output of a run.
///
/// `written` is all that was taken so far, where that is told, and `faults` counts the writes that failed.
pub trait Sink {
    ghost written: { Self → Option (List ℕ) };

    ghost faults: { Self → ℕ };

    /// Takes a prefix of the piece, and answers its length.
    fn write(&mut self, alloc: Global, piece: &[u8]) -> Result<usize, SinkError>
        // With Ok a prefix was taken, of at least one byte where the piece isn't empty; with a refusal nothing was.
        ensures within { IfOk result (λ n. n ≤ length piece.now) }
        ensures some { IfOk result (λ n. 0 < length piece.now → 0 < n) }
        ensures taken { IfOk result (λ n. written self.new ≡ option_map (λ before. before ++ take n piece.now) (written self.old)) }
        ensures kept { OnErr result (written self.new ≡ written self.old) }

        // A write fails only where a fault was counted, and where one was counted it failed.
        ensures failed_rose { OnFailedWrite result (Rose (faults self.old) (faults self.new)) }
        ensures rose_failed { UnlessFailedWrite result (¬ (faults self.old < faults self.new)) }
        ensures faults_stay { faults self.old ≤ faults self.new };
}
