//! Loading: the valid module that bytes spell (WebAssembly Core 2.0, section 7.1.2, module_decode and module_validate; WebAssembly
//! JavaScript Interface, 'compile a WebAssembly module').
#![tactic(auto)]

mod loading;

pub use loading::{LoadError, load, loads_once};
