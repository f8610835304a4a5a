//! The grammar of the script language: definitions, and laws of them.
#![tactic(auto)]

pub mod laws;
