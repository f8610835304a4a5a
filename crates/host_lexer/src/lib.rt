//! The tokens of a script.
#![tactic(auto)]

mod characters;
mod comments;
mod lexeme;
mod lexer;
mod marks;
mod numbers;
mod texts;
mod token;
mod words;

pub use lexer::tokens;
pub use token::{LexError, Mark, Token, TokenKind, Word};
