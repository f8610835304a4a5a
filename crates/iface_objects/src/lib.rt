//! Modules, instances and buffers as a script sees them (WebAssembly JavaScript Interface, section 5, in the profile).
#![tactic(auto)]

mod answer;
mod buffers;
mod exports;
mod file;
mod instances;
mod members;
mod modules;
mod realm;

pub use answer::Answer;
pub use file::ModuleFile;
pub use members::{construct, member, method, set_member};
pub use realm::Realm;
