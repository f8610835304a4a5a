//! What every layer of the embedding stands on: limits, named refusals, statuses, and the outside world as two traits.
#![tactic(auto)]

mod files;
pub mod limits;
mod memory_files;
mod memory_sinks;
mod outside;
mod plain_list;
mod plain_string;
mod real_files;
mod real_sink;
mod shared_string;
mod sink;
mod status;

pub use files::{FileError, Files};
pub use memory_files::{MemFiles, SureFiles};
pub use memory_sinks::{MemSink, SureSink};
pub use outside::{Outside, OutsideKind, Place};
pub use plain_list::PlainList;
pub use plain_string::PlainString;
pub use real_files::RealFiles;
pub use real_sink::RealSink;
pub use shared_string::SharedString;
pub use sink::{Sink, SinkError};
pub use status::Status;
