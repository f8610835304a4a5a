ghost use Rattle.std.specs.Prelude.{◌≡◌, ◌≤◌, ◌<◌, ◌++◌, [], Some, IfOk, MatchResult, length};
ghost use Rattle.embed_base.specs.MemoryCalls.{WriteGives};

use crate::sink::{Sink, SinkError};
use std::alloc::Global;
use std::marker::Model;

/// An output in memory that takes at most so many bytes of a piece, and some of whose writes fail.
#[derive(Drop)]
pub struct MemSink {
    most: usize,
    fail_at: Vec<u64>,
    calls: u64,
    faults: u64,
    bytes: Vec<u8>,
}

impl Model for MemSink {
    ghost use Rattle.std.specs.Prelude.{◌<◌};
    ghost use Rattle.embed_base.specs.Memory.{MemorySink};

    ghost Value = { MemorySink };

    ghost view = { λ s. record { most = s.most; fail_at = s.fail_at.items; calls = s.calls; faults = s.faults; bytes = s.bytes.items } };

    ghost invariant = { λ s. 0 < s.most };
}

impl MemSink {
    /// An empty output that takes at most `most` bytes in a call. The writes whose numbers, counted from 0, stand in
    /// `fail_at` fail.
    pub fn new(alloc: Global, most: usize, fail_at: Vec<u64>) -> MemSink
        requires { 1 ≤ most }
        ensures { result ≡ record { most = most; fail_at = fail_at.items; calls = 0; faults = 0; bytes = [] } }
    {
        MemSink {
            most,
            fail_at,
            calls: 0,
            faults: 0,
            bytes: Vec::new(alloc),
        }
    }

    /// What was taken so far.
    pub fn bytes(&self) -> &[u8]
        ensures { result.now ≡ self.now.bytes }
    {
        self.bytes.as_slice()
    }
}

impl Sink for MemSink {
    ghost written = { λ s. Some s.bytes };

    ghost faults = { λ s. s.faults };

    fn write(&mut self, _alloc: Global, piece: &[u8]) -> Result<usize, SinkError>
        ensures gives { WriteGives self.old piece.now result self.new }
        ensures some { IfOk result (λ size. 0 < length piece.now → 0 < size) }
        ensures faults_stay { self.old.faults ≤ self.new.faults }
    {
        let call = self.calls;
        self.calls = call.saturating_add(1);
        if self.fail_at.contains(&call) {
            self.faults = self.faults.saturating_add(1);
            return Err(SinkError::Failed);
        }
        let size = piece.len().min(self.most);
        self.bytes.extend_from_slice(&piece[..size])?;
        Ok(size)
    }
}

/// An output in memory that takes each piece whole and whose writes never fail.
#[derive(Drop)]
pub struct SureSink {
    bytes: Vec<u8>,
}

impl Model for SureSink {
    ghost use Rattle.std.specs.Prelude.{ℕ, List};

    ghost Value = { List ℕ };

    ghost view = { λ s. s.bytes.items };
}

impl SureSink {
    /// An empty output.
    pub fn new(alloc: Global) -> SureSink
        ensures { result ≡ [] }
    {
        SureSink {
            bytes: Vec::new(alloc),
        }
    }

    /// What was taken so far.
    pub fn bytes(&self) -> &[u8]
        ensures { result.now ≡ self.now }
    {
        self.bytes.as_slice()
    }
}

impl Sink for SureSink {
    ghost written = { λ s. Some s };

    ghost faults = { λ s. 0 };

    fn write(&mut self, _alloc: Global, piece: &[u8]) -> Result<usize, SinkError>
        ensures whole { MatchResult result (λ size. (size ≡ length piece.now) × (self.new ≡ self.old ++ piece.now)) (λ error. (error ≡ SinkError.NoMemory) × (self.new ≡ self.old)) }
    {
        self.bytes.extend_from_slice(piece)?;
        Ok(piece.len())
    }
}
