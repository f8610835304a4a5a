use embed_base::PlainString;
use std::alloc::AllocError;
use thiserror::Error;

/// A reserved word, which no name is (ECMA-262, section 12.7.2, with `arguments`, `eval` and `undefined`).
#[derive(Clone, Copy, PartialEq, Eq, Debug)]
pub enum Word {
    Arguments,
    Await,
    Break,
    Case,
    Catch,
    Class,
    Const,
    Continue,
    Debugger,
    Default,
    Delete,
    Do,
    Else,
    Enum,
    Eval,
    Export,
    Extends,
    False,
    Finally,
    For,
    Function,
    If,
    Implements,
    Import,
    In,
    InstanceOf,
    Interface,
    Let,
    New,
    Null,
    Package,
    Private,
    Protected,
    Public,
    Return,
    Static,
    Super,
    Switch,
    This,
    Throw,
    True,
    Try,
    TypeOf,
    Undefined,
    Var,
    Void,
    While,
    With,
    Yield,
}

/// A punctuator (section 12.8), with its spelling.
#[derive(Clone, Copy, PartialEq, Eq, Debug)]
pub enum Mark {
    /// `===`
    StrictEquals,
    /// `!==`
    StrictNotEquals,
    /// `<=`
    LessEquals,
    /// `>=`
    GreaterEquals,
    /// `&&`
    And,
    /// `||`
    Or,
    /// `++`
    Increment,
    /// `--`
    Decrement,
    /// `{`
    OpenBrace,
    /// `}`
    CloseBrace,
    /// `(`
    OpenParen,
    /// `)`
    CloseParen,
    /// `[`
    OpenBracket,
    /// `]`
    CloseBracket,
    /// `.`
    Dot,
    /// `;`
    Semicolon,
    /// `,`
    Comma,
    /// `:`
    Colon,
    /// `<`
    Less,
    /// `>`
    Greater,
    /// `=`
    Equals,
    /// `+`
    Plus,
    /// `-`
    Minus,
    /// `*`
    Star,
    /// `/`
    Slash,
    /// `%`
    Percent,
    /// `!`
    Not,
}

/// What a token is, with its value: a name's characters, a number's value, or the characters that a text stands for.
#[derive(Debug, Drop)]
pub enum TokenKind {
    Name(PlainString),
    Word(Word),
    Number(u64),
    BigInt(u128),
    Text(PlainString),
    Mark(Mark),
}

/// A token, with the bytes of the text where it begins and where it has ended. `after_line` tells whether a line end
/// stands between it and the token before it.
#[derive(Debug, Drop)]
pub struct Token {
    pub kind: TokenKind,
    pub from: u32,
    pub to: u32,
    pub after_line: bool,
}

/// Why a text has no tokens.
#[derive(Debug, Drop, Error)]
pub enum LexError {
    /// No token begins or ends well at this byte.
    #[error("bad token at {0}")]
    BadToken(u32),
    /// What begins with a digit at this byte is no number of the profile.
    #[error("number outside at {0}")]
    NumberOutside(u32),
    #[error("out of memory")]
    NoMemory,
}

impl From<AllocError> for LexError {
    ghost use Rattle.host_lexer.specs.declared.token.LexError.TheVariants.{NoMemory};
    ghost use Rattle.std.specs.Prelude.{◌≡◌};

    ghost from_gives = { λ _ e. e ≡ NoMemory };

    fn from(_: AllocError) -> Self {
        LexError::NoMemory
    }
}
