//! The store (WebAssembly Core 2.0, section 4.2.3): modules, their instances, and the functions, tables, memories, globals
//! and segments that these hold.
#![tactic(auto)]

mod instances;
pub mod laws;
mod memory;
mod shared_type;
mod store;
mod table;

pub use instances::{FuncInst, GlobalInst, Instance};
pub use memory::{MOST_PAGES, MOST_PAGES_IN_ALL};
pub use shared_type::SharedType;
pub use store::{OutOfTable, Store};
pub use table::MOST_ENTRIES;
