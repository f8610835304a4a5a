ghost use Rattle.std.specs.Prelude.{◌≡◌, None};

use crate::sink::{Sink, SinkError};
use std::alloc::Global;
use std::io::Write;
use std::marker::Model;

/// A writer of the system, such as standard output. Each piece is flushed. Its bytes aren't told: what is claimed of it is
/// when a write fails.
#[derive(Drop)]
pub struct RealSink<W: Write + Drop> {
    output: W,
    faults: u64,
}

impl<W: Write + Drop> Model for RealSink<W> {
    ghost use Rattle.std.specs.Prelude.{ℕ};

    ghost Value = { ℕ };

    ghost view = { λ s. s.faults };
}

impl<W: Write + Drop> RealSink<W> {
    /// A writer to which nothing was written yet.
    pub fn new(output: W) -> RealSink<W>
        ensures { result ≡ 0 }
    {
        RealSink { output, faults: 0 }
    }
}

impl<W: Write + Drop> Sink for RealSink<W> {
    ghost written = { λ s. None };

    ghost faults = { λ s. s };

    /// An output that takes nothing of a piece, and one that can't be flushed, have failed.
    fn write(&mut self, _alloc: Global, piece: &[u8]) -> Result<usize, SinkError> {
        if piece.is_empty() {
            return Ok(0);
        }
        if let Ok(size) = self.output.write(piece)
            && size > 0
            && self.output.flush().is_ok()
        {
            return Ok(size);
        }
        self.faults = self.faults.saturating_add(1);
        Err(SinkError::Failed)
    }
}
