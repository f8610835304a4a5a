//! One object for each address, and one address for each value of the host (WebAssembly JavaScript Interface, section 4.2), with the
//! conversions between values of scripts and of modules.
#![tactic(auto)]

mod caches;
mod conversion;
mod convert;
mod extern_key;
mod external;
mod externs;
pub mod laws;

pub use caches::Caches;
pub use conversion::Conversion;
pub use external::ExternalKind;
