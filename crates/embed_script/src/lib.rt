//! The run of a script: its values, its statements, and the transcript that they give.
#![tactic(auto)]

mod charge;
mod convert;
mod end_line;
mod evaluate;
mod functions;
mod instances;
mod module_file;
mod operators;
mod run;
mod state;
mod stop;
mod transcript;
mod value;

pub use module_file::ModuleFile;
pub use run::run_script;
pub use transcript::Transcript;
