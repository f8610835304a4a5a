//! A memory and what is done with its bytes.

ghost use Rattle.std.specs.Prelude.{◌≡◌};

use raw_memory::RawMem;
use std::alloc::{AllocError, Global};
use std::marker::Model;
use wasm_syntax::Limit;

/// No memory has more pages.
pub const MOST_PAGES: u32 = 1024;

/// All memories of a store together have no more pages.
pub const MOST_PAGES_IN_ALL: u32 = 4096;

/// The bytes of one page.
const PAGE_SIZE: u64 = 65536;

/// A memory, which contracts see as its bytes and the greatest number of pages that it may have.
#[derive(Drop)]
pub struct Memory {
    bytes: RawMem,
    max: Option<u32>,
}

impl Model for Memory {
    ghost use Rattle.wasm_store.specs.Store.{MemInst};

    ghost Value = { MemInst };

    ghost view = { λ m. record { bytes = m.bytes; max = m.max } };
}

impl Memory {
    ghost use Rattle.std.specs.Prelude.{◌≡◌, ◌+◌, ◌*◌, ◌<◌, ◌≤◌, ◌^◌, ◌↔◌, length, replicate, IfOk, OnOk, OnErr, IfSome, IsSome, IsTrue};
    ghost use Rattle.std.specs.Bool.{OnTrue, OnFalse};
    ghost use Rattle.raw_memory.specs.Bytes.{most_pages, page_size, IsMemorySize, InRange, run, replaced, IsWidth, number, low_bytes};
    ghost use Rattle.wasm_store.specs.Store.{MemInst};
    ghost use Rattle.wasm_store.specs.Memories.{new_memory, pages_of, with_bytes, grown_memory, memory_type_of, SameSize};

    /// A memory of its type's least size, all zero.
    pub fn new(alloc: Global, limit: Limit) -> Result<Memory, AllocError>
        requires { limit.min ≤ most_pages }
        ensures { IfOk result (λ m. m ≡ new_memory limit) }
    {
        let bytes = RawMem::new(alloc, limit.min)?;
        Ok(Memory {
            bytes,
            max: limit.max,
        })
    }

    /// How many pages it has.
    #[inline]
    pub fn pages(&self) -> u32
        ensures value { result ≡ pages_of self.now }
        ensures few { result ≤ most_pages }
        ensures size { IsMemorySize (length self.now.bytes) }
    {
        (self.bytes.len() / PAGE_SIZE) as u32
    }

    /// How many it may have at most.
    pub fn max(&self) -> Option<u32>
        ensures { result ≡ self.now.max }
    {
        self.max
    }

    /// Its type, with the size that it has.
    pub fn ty(&self) -> Limit
        ensures { result ≡ memory_type_of self.now }
    {
        Limit {
            min: self.pages(),
            max: self.max,
        }
    }

    /// So many pages more, all zero. Where there is no memory for it, nothing changes.
    pub fn grow(&mut self, pages: u32) -> Result<(), AllocError>
        requires { pages_of self.old + pages ≤ most_pages }
        ensures grown { OnOk result (self.new ≡ grown_memory pages self.old) }
        ensures refused { OnErr result (self.new ≡ self.old) }
        ensures len { OnOk result (length self.new.bytes ≡ length self.old.bytes + pages * page_size) }
        ensures size { IsMemorySize (length self.old.bytes) }
    {
        let _len = self.bytes.len();
        self.bytes.grow(pages)
    }

    /// Lends the `len` bytes from `from` on.
    #[inline]
    pub fn view(&self, from: u64, len: u64) -> Option<&[u8]>
        ensures in_range { IsSome result ↔ InRange self.now.bytes from len }
        ensures value { IfSome result (λ s. s.now ≡ run self.now.bytes from len) }
    {
        self.bytes.view(from, len)
    }

    /// The number in the `width` bytes from `at` on, the lowest byte first.
    #[inline]
    pub fn load(&self, at: u64, width: u8) -> Option<u64>
        requires { IsWidth width }
        ensures in_range { IsSome result ↔ InRange self.now.bytes at width }
        ensures value { IfSome result (λ v. v ≡ number (run self.now.bytes at width)) }
        ensures bound { IfSome result (λ v. v < 256 ^ width) }
    {
        self.bytes.load(at, width)
    }

    /// Writes the `width` low bytes of `v` from `at` on, the lowest first.
    #[inline]
    pub fn store(&mut self, at: u64, width: u8, v: u64) -> bool
        requires { IsWidth width }
        ensures in_range { IsTrue result ↔ InRange self.old.bytes at width }
        ensures written { OnTrue result (self.new ≡ with_bytes (replaced self.old.bytes at width (low_bytes width v)) self.old) }
        ensures refused { OnFalse result (self.new ≡ self.old) }
        ensures size { SameSize self.old self.new }
    {
        self.bytes.store(at, width, v)
    }

    /// Writes `byte` to the `len` bytes from `at` on.
    pub fn fill(&mut self, at: u64, len: u64, byte: u8) -> bool
        ensures in_range { IsTrue result ↔ InRange self.old.bytes at len }
        ensures written { OnTrue result (self.new ≡ with_bytes (replaced self.old.bytes at len (replicate len byte)) self.old) }
        ensures refused { OnFalse result (self.new ≡ self.old) }
        ensures size { SameSize self.old self.new }
    {
        self.bytes.fill(at, len, byte)
    }

    /// Copies the `len` bytes from `from` on to `to`, as they were before. The two ranges may overlap.
    pub fn copy_within(&mut self, to: u64, from: u64, len: u64) -> bool
        ensures in_range { IsTrue result ↔ (InRange self.old.bytes to len × InRange self.old.bytes from len) }
        ensures written { OnTrue result (self.new ≡ with_bytes (replaced self.old.bytes to len (run self.old.bytes from len)) self.old) }
        ensures refused { OnFalse result (self.new ≡ self.old) }
        ensures size { SameSize self.old self.new }
    {
        self.bytes.copy_within(to, from, len)
    }

    /// Writes the `n` bytes from `from` on of others from `to` on.
    pub fn write(&mut self, to: u32, bytes: &[u8], from: u32, n: u32) -> bool
        ensures in_range { IsTrue result ↔ (InRange self.old.bytes to n × InRange bytes.now from n) }
        ensures written { OnTrue result (self.new ≡ with_bytes (replaced self.old.bytes to n (run bytes.now from n)) self.old) }
        ensures refused { OnFalse result (self.new ≡ self.old) }
        ensures size { SameSize self.old self.new }
    {
        if from as u64 + n as u64 > bytes.len() as u64 {
            return false;
        }
        let (from, n) = (from as usize, n as usize);
        self.bytes.write(to as u64, &bytes[from..from + n])
    }
}
