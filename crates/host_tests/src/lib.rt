//! Tests of the script language: its tokens and its tree.
#![tactic(auto)]

#[cfg(test)]
mod lexer;
#[cfg(test)]
mod parser;
