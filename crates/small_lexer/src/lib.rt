//! The tokens of a script.
#![tactic(auto)]

mod bytes;
mod lexer;
mod number;
mod token;
mod words;

pub use lexer::{splits_once, tokens};
pub use token::{LexError, Mark, Token, TokenKind, Word};
