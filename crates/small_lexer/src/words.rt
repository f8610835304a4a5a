ghost use Rattle.std.specs.Prelude.{◌≡◌, ◌↔◌, IsTrue, Contains, IfOk, IfErr};
ghost use Rattle.std.specs.List.{list_any};
ghost use Rattle.std.specs.Str.{bytes_eq};
ghost use Rattle.small_lexer.specs.Tokens as spec;
ghost use Rattle.small_lexer.specs.Steps.{OnNotYet};

use crate::token::{LexError, TokenKind, Word};
use embed_base::PlainString;
use std::alloc::Global;

// The reserved words of scripts.
const RESERVED_WORDS: [&str; 49] = [
    "arguments",
    "await",
    "break",
    "case",
    "catch",
    "class",
    "const",
    "continue",
    "debugger",
    "default",
    "delete",
    "do",
    "else",
    "enum",
    "eval",
    "export",
    "extends",
    "false",
    "finally",
    "for",
    "function",
    "if",
    "implements",
    "import",
    "in",
    "instanceof",
    "interface",
    "let",
    "new",
    "null",
    "package",
    "private",
    "protected",
    "public",
    "return",
    "static",
    "super",
    "switch",
    "this",
    "throw",
    "true",
    "try",
    "typeof",
    "undefined",
    "var",
    "void",
    "while",
    "with",
    "yield",
];

// Whether a word is one of these.
fn is_among(words: &[&str], word: &str) -> bool
    ensures { result ≡ list_any (λ w. bytes_eq w.now word.now) words.now }
{
    words.iter().any(|w| *w == word)
}

// Whether no name may be spelt so.
fn is_reserved(word: &str) -> bool
    ensures { IsTrue result ↔ Contains spec.reserved_words word.now }
{
    is_among(&RESERVED_WORDS, word)
}

/// The kind of the token that is spelt as a name is.
pub fn name_kind(alloc: Global, word: &str) -> Result<TokenKind, LexError>
    requires { spec.IsIdentifier word.now }
    ensures kind { IfOk result (λ kind. kind ≡ spec.kind_of_name word.now) }
    ensures ok { IfOk result (λ kind. spec.IsElement (spec.name word.now)) }
    ensures err { IfErr result (λ e. OnNotYet e (¬ spec.IsElement (spec.name word.now))) }
{
    if word == "let" {
        return Ok(TokenKind::Word(Word::Let));
    }
    if word == "new" {
        return Ok(TokenKind::Word(Word::New));
    }
    if is_reserved(word) {
        return Err(LexError::NotYet);
    }
    let name = PlainString::from_str(alloc, word)?;
    Ok(TokenKind::Name(name))
}
