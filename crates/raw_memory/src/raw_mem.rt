//! A linear memory as a list of bytes. All of it is safe code over the edge in `block`.
ghost use Rattle.std.specs.Prelude.{◌≡◌, ◌+◌, ◌-◌, ◌<◌, ◌≤◌, ◌^◌, ◌++◌, length, replicate};
ghost use Rattle.raw_memory.specs.Bytes.{zeros, run, replaced, IsWidth, number, low_bytes};

use crate::block::{BlockBytes, BlockStart, FreeRight, free_block, grow_block, take_block};
use std::alloc::{AllocError, Global};
use std::marker::Model;
use std::mem;

/// The bytes of one page.
const PAGE_SIZE: usize = 65536;

/// The bytes of one memory instance, in one block.
///
/// Contracts see it as the list of its bytes. It is always a whole number of pages long (WebAssembly
/// Core 2.0, 4.2.8). Dropping it gives the block back.
pub struct RawMem {
    start: BlockStart,
    len: usize,
    contents: BlockBytes,
    right: FreeRight<Global>,
    alloc: Global,
}

impl Model for RawMem {
    ghost use Rattle.std.specs.Prelude.{◌≡◌, ℕ, List, length};
    ghost use Rattle.raw_memory.specs.Bytes.{IsMemorySize};

    ghost Value = { List ℕ };

    ghost view = { λ m. m.contents.bytes };

    ghost invariant = { λ m. (m.start.ptr ≡ m.contents.at) × (length m.contents.bytes ≡ m.len)
        × (m.right.at ≡ m.start.ptr) × (m.right.len ≡ m.len) × (m.right.alloc ≡ m.alloc)
        × IsMemorySize m.len };
}

impl Drop for RawMem {
    fn drop(self) {
        let RawMem {
            start,
            len,
            contents,
            right,
            alloc,
        } = self;
        free_block(&alloc, start, len, contents, right);
    }
}

impl RawMem {
    ghost use Rattle.std.specs.Prelude.{◌≡◌, ◌+◌, ◌*◌, ◌%◌, ◌<◌, ◌≤◌, ◌^◌, ◌↔◌, ◌++◌, List, ℕ, length, IfOk, IfSome, IsSome, IsTrue, OnOk, OnErr, replicate};
    ghost use Rattle.std.specs.Bool.{OnTrue, OnFalse};
    ghost use Rattle.std.specs.Borrow.{sem, Lends, Array, u8 as byte_row};
    ghost use Rattle.std.specs.List.{refill};
    ghost use Rattle.raw_memory.specs.Bytes.{most_pages, page_size, IsMemorySize, zeros, InRange, run, replaced, SameOutside, IsWidth, number, low_bytes};
    ghost use Rattle.raw_memory.specs.contracts.raw_mem.RawMem.{the_row};

    /// A memory of `pages` pages, all zero. It may have none.
    pub fn new(alloc: Global, pages: u32) -> Result<RawMem, AllocError>
        requires { pages ≤ most_pages }
        ensures zeros { IfOk result (λ m. m ≡ zeros (pages * page_size)) }
        ensures len { IfOk result (λ m. length m ≡ pages * page_size) }
    {
        RawMem::zeroed(alloc, pages as usize * PAGE_SIZE)
    }

    fn zeroed(alloc: Global, len: usize) -> Result<RawMem, AllocError>
        requires { IsMemorySize len }
        ensures { IfOk result (λ m. m ≡ zeros len) }
    {
        let (start, mut contents, right) = take_block(&alloc, len)?;
        clear(&mut contents, start, 0, len);
        Ok(RawMem {
            start,
            len,
            contents,
            right,
            alloc,
        })
    }

    /// Appends `pages` pages of zeros (4.5.3, growing memories). The block is made larger where it stands if there is room, and moves
    /// else; only the new bytes are written. Where there is no memory for it, nothing changes.
    pub fn grow(&mut self, pages: u32) -> Result<(), AllocError>
        requires { length self.old + pages * page_size ≤ most_pages * page_size }
        ensures grown { OnOk result (self.new ≡ self.old ++ zeros (pages * page_size)) }
        ensures len { OnOk result (length self.new ≡ length self.old + pages * page_size) }
        ensures refused { OnErr result (self.new ≡ self.old) }
    {
        if pages == 0 {
            return Ok(());
        }
        let old_len = self.len;
        let new_len = old_len + pages as usize * PAGE_SIZE;
        let start = grow_block(
            &self.alloc,
            self.start,
            old_len,
            new_len,
            &mut self.contents,
            &mut self.right,
        )?;
        clear(&mut self.contents, start, old_len, new_len);
        self.start = start;
        self.len = new_len;
        Ok(())
    }

    /// The number of bytes.
    #[inline]
    pub fn len(&self) -> u64
        ensures value { result ≡ length self.now }
        ensures size { IsMemorySize (length self.now) }
    {
        self.len as u64
    }

    /// Whether the `len` bytes from `at` on are all there.
    #[inline]
    fn has(&self, at: u64, len: u64) -> bool
        ensures { IsTrue result ↔ InRange self.now at len }
    {
        match at.checked_add(len) {
            Some(end) => end <= self.len as u64,
            None => false,
        }
    }

    /// All the bytes.
    #[inline]
    fn bytes(&self) -> &[u8]
        ensures { result.now ≡ self.now }
    {
        self.contents.bytes(self.start, self.len)
    }

    /// All the bytes, to be written.
    #[inline]
    fn bytes_mut(&mut self) -> &mut [u8]
        ensures* writes_back { sem 𝓛 (Lends the_row (Array byte_row 0) self.entry result
            (λ ws. refill (length self.entry.now) self.entry.now ws)) }
        ensures value { result.now ≡ self.old }
        ensures same_len { (ws : List ℕ) → length ws ≡ length self.old → refill (length self.old) self.old ws ≡ ws }
    {
        let (start, len) = (self.start, self.len);
        self.contents.bytes_mut(start, len)
    }

    /// Lends the `len` bytes from `from` on, without copying them.
    #[inline]
    pub fn view(&self, from: u64, len: u64) -> Option<&[u8]>
        ensures in_range { IsSome result ↔ InRange self.now from len }
        ensures value { IfSome result (λ s. s.now ≡ run self.now from len) }
        ensures len { IfSome result (λ s. length s.now ≡ len) }
    {
        if !self.has(from, len) {
            return None;
        }
        let from = from as usize;
        Some(&self.bytes()[from..from + len as usize])
    }

    /// The number in the `width` bytes from `at` on, the lowest byte first.
    #[inline]
    pub fn load(&self, at: u64, width: u8) -> Option<u64>
        requires { IsWidth width }
        ensures in_range { IsSome result ↔ InRange self.now at width }
        ensures value { IfSome result (λ v. v ≡ number (run self.now at width)) }
        ensures bound { IfSome result (λ v. v < 256 ^ width) }
    {
        let bytes = self.view(at, width as u64)?;
        Some(spelled(bytes))
    }

    /// Writes the `width` low bytes of `v` from `at` on, the lowest first.
    #[inline]
    pub fn store(&mut self, at: u64, width: u8, v: u64) -> bool
        requires { IsWidth width }
        ensures in_range { IsTrue result ↔ InRange self.old at width }
        ensures written { OnTrue result (self.new ≡ replaced self.old at width (low_bytes width v)) }
        ensures reads_back { OnTrue result (number (run self.new at width) ≡ v % 256 ^ width) }
        ensures outside { SameOutside self.old self.new at width }
        ensures refused { OnFalse result (self.new ≡ self.old) }
        ensures len { length self.new ≡ length self.old }
    {
        if !self.has(at, width as u64) {
            return false;
        }
        spell(self.bytes_mut(), at as usize, width, v);
        true
    }

    /// Writes `byte` to the `len` bytes from `at` on.
    pub fn fill(&mut self, at: u64, len: u64, byte: u8) -> bool
        ensures in_range { IsTrue result ↔ InRange self.old at len }
        ensures written { OnTrue result (self.new ≡ replaced self.old at len (replicate len byte)) }
        ensures outside { SameOutside self.old self.new at len }
        ensures refused { OnFalse result (self.new ≡ self.old) }
        ensures len { length self.new ≡ length self.old }
    {
        if !self.has(at, len) {
            return false;
        }
        set(self.bytes_mut(), at as usize, len as usize, byte);
        true
    }

    /// Copies the `len` bytes from `from` on to `to`, as they were before. The two ranges may overlap.
    pub fn copy_within(&mut self, to: u64, from: u64, len: u64) -> bool
        ensures in_range { IsTrue result ↔ (InRange self.old to len × InRange self.old from len) }
        ensures written { OnTrue result (self.new ≡ replaced self.old to len (run self.old from len)) }
        ensures outside { SameOutside self.old self.new to len }
        ensures refused { OnFalse result (self.new ≡ self.old) }
        ensures len { length self.new ≡ length self.old }
    {
        if !self.has(to, len) || !self.has(from, len) {
            return false;
        }
        shift(self.bytes_mut(), to as usize, from as usize, len as usize);
        true
    }

    /// Writes `bytes` from `at` on.
    pub fn write(&mut self, at: u64, bytes: &[u8]) -> bool
        ensures in_range { IsTrue result ↔ InRange self.old at (length bytes.now) }
        ensures written { OnTrue result (self.new ≡ replaced self.old at (length bytes.now) bytes.now) }
        ensures outside { SameOutside self.old self.new at (length bytes.now) }
        ensures refused { OnFalse result (self.new ≡ self.old) }
        ensures len { length self.new ≡ length self.old }
    {
        if !self.has(at, bytes.len() as u64) {
            return false;
        }
        put(self.bytes_mut(), at as usize, bytes);
        true
    }
}

/// Writes zeros into all the room of a block, which begins behind so many bytes and ends with its `len`-th.
fn clear(contents: &mut BlockBytes, start: BlockStart, from: usize, len: usize)
    requires { (start.ptr ≡ contents.old.at) × (length contents.old.bytes ≡ from) × (contents.old.spare + from ≡ len) }
    ensures { (contents.new.at ≡ contents.old.at) × (contents.new.bytes ≡ contents.old.bytes ++ zeros (len - from)) }
{
    for i in from..len {
        contents.push(start, i, 0);
    }
}

/// The number that 1, 2, 4 or 8 bytes spell.
#[inline]
fn spelled(bytes: &[u8]) -> u64
    requires { IsWidth (length bytes.now) }
    ensures value { result ≡ number bytes.now }
    ensures bound { result < 256 ^ length bytes.now }
{
    match bytes {
        [a] => *a as u64,
        [a, b] => u16::from_le_bytes([*a, *b]) as u64,
        [a, b, c, d] => u32::from_le_bytes([*a, *b, *c, *d]) as u64,
        [a, b, c, d, e, f, g, h] => u64::from_le_bytes([*a, *b, *c, *d, *e, *f, *g, *h]),
        _ => unreachable!(),
    }
}

/// Writes the `width` low bytes of `v` from `at` on.
#[inline]
fn spell(bytes: &mut [u8], at: usize, width: u8, v: u64)
    requires width { IsWidth width }
    requires in_range { at + width ≤ length bytes.old }
    ensures { bytes.new ≡ replaced bytes.old at width (low_bytes width v) }
{
    let all = v.to_le_bytes();
    match width {
        1 => put(bytes, at, &all[..1]),
        2 => put(bytes, at, &all[..2]),
        4 => put(bytes, at, &all[..4]),
        _ => put(bytes, at, &all),
    }
}

#[inline]
fn put(bytes: &mut [u8], at: usize, new: &[u8])
    requires { at + length new.now ≤ length bytes.old }
    ensures { bytes.new ≡ replaced bytes.old at (length new.now) new.now }
{
    bytes[at..at + new.len()].copy_from_slice(new);
}

fn set(bytes: &mut [u8], at: usize, len: usize, byte: u8)
    requires { at + len ≤ length bytes.old }
    ensures { bytes.new ≡ replaced bytes.old at len (replicate len byte) }
{
    bytes[at..at + len].fill(byte);
}

fn shift(bytes: &mut [u8], to: usize, from: usize, len: usize)
    requires { (to + len ≤ length bytes.old) × (from + len ≤ length bytes.old) }
    ensures { bytes.new ≡ replaced bytes.old to len (run bytes.old from len) }
{
    bytes.copy_within(from..from + len, to);
}

// A pointer and a length.
const _: () = prove!(mem::size_of::<RawMem>() == 16);

const _: () = prove!(mem::size_of::<RawMem>() < mem::size_of::<Vec<u8>>());
