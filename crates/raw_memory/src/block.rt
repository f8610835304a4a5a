//! The edge of the crate: the six functions that touch pointers, and the three values that say what
//! they may do. Each of the three owns a part of one block: where it begins, its bytes, and the right
//! to give it back.
ghost use Rattle.std.specs.Prelude.{◌≡◌, ℕ, ◌+◌, ◌<◌, ◌≤◌, ◌^◌, List, [], ◌∷◌, ◌++◌, length, IfOk, MatchResult};
ghost use Rattle.std.specs.Borrow.{sem};
ghost use base.Fml.{ftrue};
ghost use denote.RawPtr.{Ptr};
ghost use Rattle.raw_memory.specs.Ownership.{bytes_owned, bytes_lent, right_owned};

use std::alloc::{AllocError, Allocator};
use std::marker::{Model, PhantomData};
use std::slice;

/// Where a block begins. It owns nothing.
#[derive(Clone, Copy)]
pub(crate) struct BlockStart {
    ptr: *mut u8,
}

/// The owner of the bytes of a block, and of the room behind them. It takes no space.
pub(crate) struct BlockBytes {
    mark: PhantomData<*const u8>,
    ghost at: { Ptr },
    ghost bytes: { List ℕ },
    ghost spare: { ℕ },
}

impl Model for BlockBytes {
    ghost also_owns = { λ c. bytes_owned c.at c.bytes c.spare };

    ghost also_shares = { λ c _ κ. bytes_lent c.at c.bytes c.spare κ };
}

/// The right to give a block of `len` bytes back to its allocator. It takes no space.
pub(crate) struct FreeRight<A: Allocator> {
    mark: PhantomData<*const A>,
    ghost at: { Ptr },
    ghost len: { ℕ },
    ghost alloc: { A },
}

impl<A: Allocator> Model for FreeRight<A> {
    ghost also_owns = { λ d. right_owned (A.dealloc_token d.alloc) d.at d.len };

    ghost also_shares = { λ _ _ _. ftrue };
}

/// Asks for a block with room for `len` bytes.
pub(crate) fn take_block<A: Allocator>(
    alloc: &A,
    len: usize,
) -> Result<(BlockStart, BlockBytes, FreeRight<A>), AllocError>
    requires { len < 2 ^ 63 }
    ensures { IfOk result (λ r. (r.1.at ≡ r.0.ptr) × (r.1.bytes ≡ []) × (r.1.spare ≡ len)
        × (r.2.at ≡ r.0.ptr) × (r.2.len ≡ len) × (r.2.alloc ≡ alloc.now)) }
{
    match alloc.allocate(len, 1) {
        Ok(ptr) => Ok((
            BlockStart { ptr },
            BlockBytes { mark: PhantomData },
            FreeRight { mark: PhantomData },
        )),
        Err(error) => Err(error),
    }
}

/// Makes a block larger, of which every byte is written: they stand in the new one, and behind them is room. The new block may
/// begin somewhere else. Where there is no memory for it, the block is as it was.
pub(crate) fn grow_block<A: Allocator>(
    alloc: &A,
    start: BlockStart,
    len: usize,
    new_len: usize,
    contents: &mut BlockBytes,
    right: &mut FreeRight<A>,
) -> Result<BlockStart, AllocError>
    requires { (len ≤ new_len) × (new_len < 2 ^ 63) × (contents.old.at ≡ start.ptr) × (length contents.old.bytes ≡ len)
        × (right.old.at ≡ start.ptr) × (right.old.len ≡ len) × (right.old.alloc ≡ alloc.now) }
    ensures { MatchResult result (λ r. (contents.new.at ≡ r.ptr) × (contents.new.bytes ≡ contents.old.bytes) × (contents.new.spare + len ≡ new_len)
        × (right.new.at ≡ r.ptr) × (right.new.len ≡ new_len) × (right.new.alloc ≡ alloc.now)) (λ _. (contents.new ≡ contents.old) × (right.new ≡ right.old)) }
{
    match unsafe { alloc.grow(start.ptr, len, len, new_len) } {
        Ok(ptr) => Ok(BlockStart { ptr }),
        Err(error) => Err(error),
    }
}

/// Gives a block back, of which every byte is written. They are lost.
pub(crate) fn free_block<A: Allocator>(
    alloc: &A,
    start: BlockStart,
    len: usize,
    contents: BlockBytes,
    right: FreeRight<A>,
)
    requires { (contents.at ≡ start.ptr) × (length contents.bytes ≡ len)
        × (right.at ≡ start.ptr) × (right.len ≡ len) × (right.alloc ≡ alloc.now) }
{
    let BlockBytes { mark: _ } = contents;
    let FreeRight { mark: _ } = right;
    unsafe {
        alloc.deallocate(start.ptr, len, 1);
    }
}

impl BlockBytes {
    ghost use Rattle.raw_memory.specs.Lending.{lends_bytes};

    /// Writes one byte into the room behind the others.
    pub(crate) fn push(&mut self, start: BlockStart, len: usize, byte: u8)
        requires { (start.ptr ≡ self.old.at) × (length self.old.bytes ≡ len) × (0 < self.old.spare) }
        ensures { (self.new.at ≡ self.old.at) × (self.new.bytes ≡ self.old.bytes ++ byte ∷ [])
            × (self.new.spare + 1 ≡ self.old.spare) }
    {
        unsafe { start.ptr.add(len).write(byte) }
    }

    /// Lends the bytes for reading.
    pub(crate) fn bytes(&self, start: BlockStart, len: usize) -> &[u8]
        requires { (start.ptr ≡ self.now.at) × (length self.now.bytes ≡ len) }
        ensures { result.now ≡ self.now.bytes }
    {
        unsafe { slice::from_raw_parts(start.ptr, len) }
    }

    /// Lends the bytes for writing.
    pub(crate) fn bytes_mut(&mut self, start: BlockStart, len: usize) -> &mut [u8]
        requires { (start.ptr ≡ self.old.at) × (length self.old.bytes ≡ len) }
        ensures* writes_back { sem 𝓛 (lends_bytes self.entry result) }
        ensures value { result.now ≡ self.old.bytes }
    {
        unsafe { slice::from_raw_parts_mut(start.ptr, len) }
    }
}
