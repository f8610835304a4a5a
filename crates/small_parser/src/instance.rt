//! The tokens of `new WebAssembly.Instance(new WebAssembly.Module(readbuffer(FILE))).exports.EXPORT` around the two names.
ghost use Rattle.std.specs.Prelude.{◌≡◌};
ghost use Rattle.small_parser.specs.Pieces as spec;

use small_lexer::{Mark, TokenKind, Word};

/// One of these tokens.
#[derive(Clone, Copy, PartialEq, Eq, Debug)]
pub enum Piece {
    New,
    Interface,
    Instance,
    Module,
    Reading,
    Exports,
    Open,
    Close,
    Dot,
}

/// The ones between the first `new` and the file's name.
pub const BEFORE_FILE: [Piece; 11] = [
    Piece::Interface,
    Piece::Dot,
    Piece::Instance,
    Piece::Open,
    Piece::New,
    Piece::Interface,
    Piece::Dot,
    Piece::Module,
    Piece::Open,
    Piece::Reading,
    Piece::Open,
];

/// The ones between the file's name and the export's.
pub const AFTER_FILE: [Piece; 6] = [
    Piece::Close,
    Piece::Close,
    Piece::Close,
    Piece::Dot,
    Piece::Exports,
    Piece::Dot,
];

impl Piece {
    /// Whether a token is this one.
    pub fn fits(self, kind: &TokenKind) -> bool
        ensures { result ≡ spec.fits self kind.now }
    {
        match self {
            Piece::New => matches!(kind, TokenKind::Word(Word::New)),
            Piece::Interface => is_called(kind, "WebAssembly"),
            Piece::Instance => is_called(kind, "Instance"),
            Piece::Module => is_called(kind, "Module"),
            Piece::Reading => is_called(kind, "readbuffer"),
            Piece::Exports => is_called(kind, "exports"),
            Piece::Open => matches!(kind, TokenKind::Mark(Mark::Open)),
            Piece::Close => matches!(kind, TokenKind::Mark(Mark::Close)),
            Piece::Dot => matches!(kind, TokenKind::Mark(Mark::Dot)),
        }
    }
}

// Whether a token is this name.
fn is_called(kind: &TokenKind, name: &str) -> bool
    ensures { result ≡ spec.is_called name.now kind.now }
{
    match kind {
        TokenKind::Name(spelling) => spelling.as_str() == name,
        _ => false,
    }
}
