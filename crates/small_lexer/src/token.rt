use embed_base::PlainString;
use std::alloc::AllocError;
use thiserror::Error;

/// A reserved word that the script form uses.
#[derive(Clone, Copy, PartialEq, Eq, Debug)]
pub enum Word {
    Let,
    New,
}

/// A punctuator.
#[derive(Clone, Copy, PartialEq, Eq, Debug)]
pub enum Mark {
    Equals,
    Semicolon,
    Open,
    Close,
    Comma,
    Plus,
    Minus,
    Star,
    Dot,
}

/// What a token is, with its value: a name's or a text's characters, or a number.
#[derive(Debug, Drop)]
pub enum TokenKind {
    Name(PlainString),
    Word(Word),
    Number(u64),
    Text(PlainString),
    Mark(Mark),
}

/// A token, with the bytes of the text where it begins and where it has ended. `after_line` tells whether a line end
/// stands between it and the token before it.
#[derive(Debug, Drop)]
pub struct Token {
    pub kind: TokenKind,
    pub from: u32,
    pub to: u32,
    pub after_line: bool,
}

/// Why a text has no tokens.
#[derive(Debug, Drop, Error)]
pub enum LexError {
    #[error("the text doesn't split into the tokens of the script form")]
    NotYet,
    #[error("out of memory")]
    NoMemory,
}

impl From<AllocError> for LexError {
    ghost use Rattle.small_lexer.specs.declared.token.LexError.TheVariants.{NoMemory};
    ghost use Rattle.std.specs.Prelude.{◌≡◌};

    ghost from_gives = { λ _ e. e ≡ NoMemory };

    fn from(_: AllocError) -> Self {
        LexError::NoMemory
    }
}
