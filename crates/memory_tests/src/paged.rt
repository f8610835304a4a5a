//! A store with one memory and one data segment.

ghost use Rattle.std.specs.Prelude.{◌≡◌, ◌≤◌};
ghost use Rattle.raw_memory.specs.Bytes.{most_pages, IsWidth};

use sqlite_items::Items;
use std::alloc::{AllocError, Global};
use std::marker::Model;
use wasm_store::Store;
use wasm_store::laws::types_stay;
use wasm_syntax::{DataAddr, Limit, MemAddr};

#[derive(Drop)]
pub(crate) struct Paged {
    store: Store,
    memory: MemAddr,
    segment: DataAddr,
}

impl Model for Paged {
    ghost use Rattle.wasm_store.specs.Store.{Store};
    ghost use Rattle.wasm_syntax.specs.declared.addresses.MemAddr.{MemAddr};
    ghost use Rattle.wasm_syntax.specs.declared.addresses.DataAddr.{DataAddr};
    ghost use Rattle.memory_tests.specs.Kept.{IsReady};

    ghost Value = { Store × MemAddr × DataAddr };

    ghost view = { λ p. (p.store, p.memory, p.segment) };

    ghost invariant = { λ p. IsReady p.store p.memory p.segment };
}

impl Paged {
    /// A memory of one page, which may have `most`, and a segment of three bytes.
    pub(crate) fn new(alloc: Global, most: u32) -> Result<Option<Paged>, AllocError>
        requires least { 1 ≤ most }
        requires most { most ≤ most_pages }
    {
        types_stay();
        let mut store = Store::new(alloc);
        let bytes = Items::from_slice(alloc, &[5, 6, 7])?;
        let segment = store.alloc_data(alloc, bytes)?;
        let limit = Limit {
            min: 1,
            max: Some(most),
        };
        match store.alloc_memory(alloc, limit)? {
            Some(memory) => Ok(Some(Paged {
                store,
                memory,
                segment,
            })),
            None => Ok(None),
        }
    }

    /// Whether a number of so many bytes can be written at a place.
    pub(crate) fn write(&mut self, at: u64, width: u8, v: u64) -> bool
        requires { IsWidth width }
    {
        types_stay();
        self.store.store(self.memory, at, width, v)
    }

    /// The number of so many bytes at a place.
    pub(crate) fn load(&self, at: u64, width: u8) -> Option<u64>
        requires { IsWidth width }
    {
        self.store.load(self.memory, at, width)
    }

    pub(crate) fn fill(&mut self, at: u32, byte: u8, n: u32) -> bool {
        types_stay();
        self.store.memory_fill(self.memory, at, byte, n).is_ok()
    }

    pub(crate) fn copy(&mut self, to: u32, from: u32, n: u32) -> bool {
        types_stay();
        self.store.memory_copy(self.memory, to, from, n).is_ok()
    }

    pub(crate) fn init(&mut self, to: u32, from: u32, n: u32) -> bool {
        types_stay();
        self.store
            .memory_init(self.memory, self.segment, to, from, n)
            .is_ok()
    }

    pub(crate) fn drop_data(&mut self) {
        types_stay();
        self.store.data_drop(self.segment);
    }

    /// Whether a growth by `delta` pages answers `wanted`: the pages before it, or none.
    pub(crate) fn grows(&mut self, alloc: Global, delta: u32, wanted: Option<u32>) -> bool {
        types_stay();
        match self.store.grow_memory(alloc, self.memory, delta) {
            Ok(pages) => pages == wanted,
            Err(_) => false,
        }
    }

    /// Whether these are the bytes from a place on.
    pub(crate) fn bytes_are(&self, from: u64, expected: &[u8]) -> bool {
        match self.store.view(self.memory, from, expected.len() as u64) {
            Some(bytes) => bytes == expected,
            None => false,
        }
    }
}
