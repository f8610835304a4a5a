ghost use Rattle.std.specs.Prelude.{◌≡◌, ℕ, ◌<◌, ◌≤◌, OnOk, OnErr, take};
ghost use Rattle.embed_base.specs.Counts.{Rose};
ghost use Rattle.embed_base.specs.Answers.{OnFailedWrite, UnlessFailedWrite};
ghost use Rattle.embed_cmd.specs.Headline.{with_more};

use embed_base::{Sink, SinkError};
use std::alloc::Global;

/// Writes all of the bytes, a piece at a time, up to the first fault.
pub(crate) fn write_whole<O: Sink>(
    alloc: Global,
    out: &mut O,
    bytes: &[u8],
) -> Result<(), SinkError>
    ensures whole { OnOk result (O.written out.new ≡ with_more (O.written out.old) bytes.now) }
    ensures prefix { OnErr result ((size : ℕ) × (O.written out.new ≡ with_more (O.written out.old) (take size bytes.now))) }
    ensures failed_rose { OnFailedWrite result (Rose (O.faults out.old) (O.faults out.new)) }
    ensures rose_failed { UnlessFailedWrite result (¬ (O.faults out.old < O.faults out.new)) }
{
    let mut at = 0;
    while at < bytes.len() {
        at += out.write(alloc, &bytes[at..])?;
    }
    Ok(())
}
