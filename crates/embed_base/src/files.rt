ghost use Rattle.std.specs.Prelude.{◌≡◌, ℕ, ◌<◌, ◌≤◌, List, [], Bool, true, false, Option, Some, None, IfSome, OnOk, OnErr, length};
ghost use Rattle.embed_base.specs.Counts.{Rose, RoseByMore};
ghost use Rattle.embed_base.specs.Answers.{OnFailedRead, UnlessFailedRead, OnTooLong, IsTooLongOrNoMemory, IsFailedOrNoMemory};

use std::alloc::{AllocError, Global};
use thiserror::Error;

/// Why a file wasn't read.
#[derive(Clone, Copy, PartialEq, Eq, Debug, Error)]
pub enum FileError {
    #[error("the file couldn't be read")]
    Failed,
    #[error("the file is too long")]
    TooLong,
    #[error("out of memory")]
    NoMemory,
}

impl From<AllocError> for FileError {
    ghost use Rattle.embed_base.specs.declared.files.FileError.TheVariants.{NoMemory};
    ghost use Rattle.std.specs.Prelude.{◌≡◌};

    ghost from_gives = { λ _ e. e ≡ NoMemory };

    fn from(_: AllocError) -> Self {
        FileError::NoMemory
    }
}

/// The files that a run can read.
///
/// `content` is what a file of a name holds, where that is told: a name that isn't there has no told content, and reading
/// it is a fault. `faults` counts the reads that failed, `taken` the bytes taken where content isn't told, and `failed` is
/// the name that the last failed read was given. `absent` tells of a name that it is known not to be there.
pub trait Files {
    ghost content: { Self → List ℕ → Option (List ℕ) };

    ghost faults: { Self → ℕ };

    ghost taken: { Self → ℕ };

    ghost failed: { Self → Option (List ℕ) };

    ghost absent: { Self → List ℕ → Bool } = { λ _ _. false };

    /// Puts the whole content of the file `name` into `into`, in place of what was there. After a refusal `into` is empty.
    fn read_whole(
        &mut self,
        alloc: Global,
        name: &str,
        limit: u64,
        into: &mut Vec<u8>,
    ) -> Result<(), FileError>
        // With Ok the whole content is there, within the limit; with a refusal nothing is.
        ensures whole { OnOk result (IfSome (content self.old name.now) (λ bytes. into.new.items ≡ bytes)) }
        ensures within { OnOk result (length into.new.items ≤ limit) }
        ensures emptied { OnErr result (into.new.items ≡ []) }

        // A read fails only where a fault was counted, and where one was counted it failed.
        ensures failed_rose { OnFailedRead result (Rose (faults self.old) (faults self.new)) }
        ensures rose_failed { UnlessFailedRead result (¬ (faults self.old < faults self.new)) }
        ensures failed_named { OnFailedRead result (failed self.new ≡ Some name.now) }
        ensures failed_stays { UnlessFailedRead result (failed self.new ≡ failed self.old) }

        // A told content is too long exactly where it passes the limit and no fault rose, unless memory runs out.
        ensures too_long_told { OnTooLong result (IfSome (content self.old name.now) (λ bytes. limit < length bytes)) }
        ensures told_too_long { IfSome (content self.old name.now) (λ bytes. limit < length bytes → ¬ Rose (faults self.old) (faults self.new) → IsTooLongOrNoMemory result) }
        ensures too_long_untold { OnTooLong result (content self.old name.now ≡ None → RoseByMore (taken self.old) (taken self.new) limit) }

        // A name that isn't there has no told content, and reading it is a fault.
        ensures absent_untold { absent self.old name.now ≡ true → content self.old name.now ≡ None }
        ensures absent_failed { absent self.old name.now ≡ true → IsFailedOrNoMemory result }

        // Told contents stay, and no count falls.
        ensures content_stays { (other : List ℕ) → content self.new other ≡ content self.old other }
        ensures absent_stays { (other : List ℕ) → absent self.new other ≡ absent self.old other }
        ensures faults_stay { faults self.old ≤ faults self.new }
        ensures taken_stays { taken self.old ≤ taken self.new }
        ensures taken_told { IfSome (content self.old name.now) (λ _. taken self.new ≡ taken self.old) };
}
