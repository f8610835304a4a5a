ghost use Rattle.std.specs.Prelude.{◌≡◌, ℕ, ◌-◌, List, [], Option, None, OnOk, IfSome, length, ◌≤◌};
ghost use Rattle.std.specs.Io.KnownBytes.{Consumes, IsAtEnd};
ghost use Rattle.embed_base.specs.Counts.{RoseByMore, raised};
ghost use Rattle.embed_base.specs.Answers.{OnTooLong, OnTrue};

use crate::files::{FileError, Files};
use std::alloc::Global;
use std::io::{ErrorKind, Read};
use std::marker::Model;
use std::{fs, rt};

/// How many bytes are asked for in one read.
const CHUNK: usize = 16_384;

/// Reads once, and puts the bytes behind those that are there. Tells whether the source is at its end.
#[tactic(auto, using(crate::proofs::Consuming::consumed_more, crate::proofs::Consuming::consumed_no_more))]
fn take_some<S: Read>(
    source: &mut S,
    limit: u64,
    into: &mut Vec<u8>,
    taken: &mut u64,
) -> Result<bool, FileError>
    requires { length into.old.items ≤ limit }
    ensures consumed { (before : Option (List ℕ)) → Consumes before (S.Read.remaining source.old) into.old.items → OnOk result (Consumes before (S.Read.remaining source.new) into.new.items) }
    ensures ended { OnTrue result (IsAtEnd (S.Read.remaining source.new)) }
    ensures within { OnOk result (length into.new.items ≤ limit) }
    ensures counted { OnOk result (raised taken.old (length into.new.items - length into.old.items) ≤ taken.new) }
    ensures grown { OnOk result (length into.old.items ≤ length into.new.items) }
    ensures too_long { (before : ℕ) → raised before (length into.old.items) ≤ taken.old → OnTooLong result (RoseByMore before taken.new limit) }
    ensures taken_stays { taken.old ≤ taken.new }
{
    let mut chunk = [0u8; CHUNK];
    match source.read(&mut chunk) {
        Ok(0) => Ok(true),
        Ok(size) => {
            *taken = taken.saturating_add(size as u64);
            if into.len() as u64 + size as u64 > limit {
                return Err(FileError::TooLong);
            }
            into.extend_from_slice(&chunk[..size])?;
            Ok(false)
        }
        Err(error) => {
            if error.kind() == ErrorKind::Interrupted {
                return Ok(false);
            }
            Err(FileError::Failed)
        }
    }
}

/// Reads a source to its end, and counts the bytes that were taken.
fn take_all<S: Read>(
    source: &mut S,
    limit: u64,
    into: &mut Vec<u8>,
    taken: &mut u64,
) -> Result<(), FileError>
    requires { into.old.items ≡ [] }
    // Where the bytes are known that the source has, all of them were read.
    ensures whole { OnOk result (IfSome (S.Read.remaining source.old) (λ bytes. into.new.items ≡ bytes)) }
    ensures ended { OnOk result (IsAtEnd (S.Read.remaining source.new)) }
    ensures within { OnOk result (length into.new.items ≤ limit) }
    ensures too_long { OnTooLong result (RoseByMore taken.old taken.new limit) }
    ensures taken_stays { taken.old ≤ taken.new }
{
    for _ in 0..u64::MAX {
        if take_some(source, limit, into, taken)? {
            return Ok(());
        }
    }
    Err(FileError::Failed)
}

/// The files of the file system. Their content isn't told: what is claimed of them is when a read fails, how many bytes
/// were taken, and what is left after a refusal.
#[derive(Drop)]
pub struct RealFiles<R: rt::Files + Drop> {
    system: R,
    faults: u64,
    taken: u64,
    failed: Option<String>,
}

impl<R: rt::Files + Drop> Model for RealFiles<R> {
    ghost use Rattle.std.specs.Prelude.{string_bytes};
    ghost use Rattle.std.specs.Option.{option_map};
    ghost use Rattle.embed_base.specs.Memory.{FileCounts};

    ghost Value = { FileCounts };

    ghost view = { λ s. record { faults = s.faults; taken = s.taken; failed = option_map string_bytes s.failed } };
}

impl<R: rt::Files + Drop> RealFiles<R> {
    /// The files of a system, none of which was read yet.
    pub fn new(system: R) -> RealFiles<R>
        ensures { result ≡ record { faults = 0; taken = 0; failed = None } }
    {
        RealFiles {
            system,
            faults: 0,
            taken: 0,
            failed: None,
        }
    }
}

impl<R: rt::Files + Drop> Files for RealFiles<R> {
    ghost content = { λ s name. None };

    ghost faults = { λ s. s.faults };

    ghost taken = { λ s. s.taken };

    ghost failed = { λ s. s.failed };

    fn read_whole(
        &mut self,
        alloc: Global,
        name: &str,
        limit: u64,
        into: &mut Vec<u8>,
    ) -> Result<(), FileError> {
        into.clear();
        let asked = String::from_str(alloc, name)?;
        let answer = match fs::open(&self.system, name) {
            Ok(mut file) => take_all(&mut file, limit, into, &mut self.taken),
            Err(_) => Err(FileError::Failed),
        };
        if answer.is_err() {
            into.clear();
        }
        if answer == Err(FileError::Failed) {
            self.faults = self.faults.saturating_add(1);
            self.failed = Some(asked);
        }
        answer
    }
}
