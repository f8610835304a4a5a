//! The validator of WebAssembly modules (WebAssembly Core 2.0, chapter 3): one pass over each body, with one list of operands and one
//! of open blocks.
#![tactic(auto)]

mod flat;
mod locals;
mod numbering;
mod opens;
mod operands;
mod pass;
mod rules;
mod runs;
mod signature;
mod spaces;
mod types;
mod valid;

pub use opens::MOST_LABELS;
pub use valid::{Invalid, ValidModule, validate};
