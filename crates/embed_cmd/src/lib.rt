//! The command: its words, the files that they ask for, and the top call.
#![tactic(auto)]

mod asked_files;
mod main_run;
mod sorting;
mod words;
mod write;

pub use embed_script::Transcript;
pub use main_run::run_main;
pub use words::{Asked, read_words};
