//! The bytes of one linear memory, in one block behind a raw pointer.
//!
//! `RawMem` is a memory instance of WebAssembly (Core 2.0, 4.2.8) without its type: a list of bytes that
//! is read, written and grown. Contracts see it as that list. Pointers stay within six small functions.
#![tactic(auto)]

mod block;
mod raw_mem;

pub use raw_mem::RawMem;
