//! Tests of the crates that all others stand on: plain data of WebAssembly, its integers, the bytes of a memory, and
//! the outside world.
#![tactic(auto)]

#[cfg(test)]
mod files;
#[cfg(test)]
mod memory;
#[cfg(test)]
mod numbers;
#[cfg(test)]
mod syntax;
