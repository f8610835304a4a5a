ghost use Rattle.std.specs.Prelude.{◌≡◌, false};

use crate::token::TokenKind;
use std::alloc::AllocError;

// An input element that begins some characters: how many it has, the kind of its token if it makes one, and whether
// it is a line end or has one in it.
#[derive(Drop)]
pub struct Lexeme {
    pub len: usize,
    pub kind: Option<TokenKind>,
    pub line_end: bool,
}

// Why no element begins some characters: no token does, a comment has a line separator after so many characters of what
// stands in it, or the digit that stands there begins no number of the profile.
#[derive(Drop)]
pub enum Failure {
    NoToken,
    Separator(usize),
    NoNumber,
    NoMemory,
}

impl From<AllocError> for Failure {
    ghost use Rattle.host_lexer.specs.declared.lexeme.Failure.TheVariants.{NoMemory};
    ghost use Rattle.std.specs.Prelude.{◌≡◌};

    ghost from_gives = { λ _ e. e ≡ NoMemory };

    fn from(_: AllocError) -> Self {
        Failure::NoMemory
    }
}

impl Lexeme {
    /// An element of `len` characters that makes a token.
    pub fn token(len: usize, kind: TokenKind) -> Lexeme
        ensures len { result.len ≡ len }
        ensures kind { result.kind ≡ Some kind }
        ensures line_end { result.line_end ≡ false }
    {
        Lexeme {
            len,
            kind: Some(kind),
            line_end: false,
        }
    }

    /// A blank, a line end or a comment of `len` characters; `line_end` tells whether a line ends in it.
    pub fn blank(len: usize, line_end: bool) -> Lexeme
        ensures len { result.len ≡ len }
        ensures kind { result.kind ≡ None }
        ensures line_end { result.line_end ≡ line_end }
    {
        Lexeme {
            len,
            kind: None,
            line_end,
        }
    }
}
