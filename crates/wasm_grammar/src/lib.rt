//! The binary format of WebAssembly Core 2.0, chapter 5: which bytes spell a module, and readers that are exact.
#![tactic(auto)]

mod blocks;
mod built;
mod contents;
mod decoder;
mod entries;
mod expressions;
mod fault;
mod functions;
mod held;
mod numbers;
mod opcodes;
mod ordered;
mod parts;
mod segments;
mod spelled;
mod tokens;
mod types;
mod vectors;

pub use built::Foreign;
pub use decoder::{DecodeError, decode, decodes_once};
pub use fault::ReadError;
pub use spelled::{
    read_bytes, read_name, read_s32, read_s64, read_type_index, read_u32, skip_custom,
};
