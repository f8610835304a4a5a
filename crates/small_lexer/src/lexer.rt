ghost use Rattle.std.specs.Prelude.{◌≡◌, ◌⊎◌, ℕ, List, true, false, ◌<◌, ◌^◌, [], ◌∷◌, ◌++◌, OnOk, IfOk, IfErr, MatchOption, length, slice_index, slice_range, All};
ghost use Rattle.small_lexer.specs.declared.token.Token.{Token};
ghost use Rattle.small_lexer.specs.Tokens.{HasTokens, InOrder, Spells, Gives, byte_of, is_name_start, is_digit};
ghost use Rattle.small_lexer.specs.Steps.{Reads, NoElement, OnNotYet};
ghost use Rattle.small_lexer.specs.declared.token.Mark.{Mark};

use crate::bytes;
use crate::number::number_value;
use crate::token::{LexError, Mark, Token, TokenKind};
use crate::words::name_kind;
use embed_base::PlainString;
use std::alloc::{AllocError, Global};

// The kind of the token that begins at a byte, and the byte where it has ended.
#[derive(Drop)]
struct Lexeme {
    kind: TokenKind,
    to: usize,
}

/// The tokens of a script's text, from the first to the last, with white space left out (ECMA-262, section 12).
/// `NotYet` says that the text doesn't split into the tokens of the script form.
pub fn tokens(alloc: Global, text: &str) -> Result<Vec<Token>, LexError>
    requires { length text.now < 2 ^ 32 }

    // What is found are the text's tokens.
    ensures found { IfOk result (λ ts. HasTokens text.now ts.items) }

    // A text's tokens are found, unless memory runs out.
    ensures only { (ts : List Token) → HasTokens text.now ts → Gives result ts }

    // They stand in order, apart and within the text, and each kind is one that can be.
    ensures spans { IfOk result (λ ts. InOrder 0 (length text.now) ts.items) }

    // The bytes of the text between a token's ends spell it.
    ensures spelled { IfOk result (λ ts. All (λ t. Spells (slice_range text.now t.from t.to) t.kind) ts.items) }
{
    let bytes = text.as_bytes();
    let mut found = Vec::new(alloc);
    let mut at = 0;
    let mut after_line = false;
    while at < bytes.len() {
        match bytes[at] {
            b' ' => at += 1,
            b'\n' => {
                after_line = true;
                at += 1;
            }
            _ => {
                let Lexeme { kind, to } = read_token(alloc, text, at)?;
                let token = Token {
                    kind,
                    from: at as u32,
                    to: to as u32,
                    after_line,
                };
                add(&mut found, token)?;
                at = to;
                after_line = false;
            }
        }
    }
    Ok(found)
}

/// Whether bytes split into tokens is decided, and they split in one way alone, whatever the bytes are.
pub fn splits_once()
    ensures decided { (bytes : List ℕ) → ((ts : List Token) × HasTokens bytes ts) ⊎ ((ts : List Token) → ¬ HasTokens bytes ts) }
    ensures once { (bytes : List ℕ) (ts us : List Token) → HasTokens bytes ts → HasTokens bytes us → ts ≡ us }
{}

// Adds a token at the end.
fn add(tokens: &mut Vec<Token>, token: Token) -> Result<(), AllocError>
    ensures { OnOk result (tokens.new.items ≡ tokens.old.items ++ token ∷ []) }
{
    tokens.push(token)?;
    Ok(())
}

// The token that begins at a byte that is no white space.
fn read_token(alloc: Global, text: &str, from: usize) -> Result<Lexeme, LexError>
    requires within { from < length text.now }
    requires no_space { ¬ (slice_index text.now from ≡ 32) }
    requires no_line_feed { ¬ (slice_index text.now from ≡ 10) }
    ensures found { IfOk result (λ l. Reads text.now from l.kind l.to) }
    ensures refused { IfErr result (λ e. OnNotYet e (NoElement text.now from)) }
{
    let first = text.as_bytes()[from];
    if bytes::is_name_start(first) {
        return read_name(alloc, text, from);
    }
    if bytes::is_digit(first) {
        return read_number(text, from);
    }
    if first == b'"' {
        return read_text(alloc, text, from);
    }
    read_mark(text, from)
}

// The name or word that begins at a byte.
fn read_name(alloc: Global, text: &str, from: usize) -> Result<Lexeme, LexError>
    requires within { from < length text.now }
    requires starts { is_name_start (slice_index text.now from) ≡ true }
    ensures found { IfOk result (λ l. Reads text.now from l.kind l.to) }
    ensures refused { IfErr result (λ e. OnNotYet e (NoElement text.now from)) }
{
    let to = from + bytes::name_len(&text.as_bytes()[from..]);
    let kind = name_kind(alloc, &text[from..to])?;
    Ok(Lexeme { kind, to })
}

// The number that begins at a byte.
fn read_number(text: &str, from: usize) -> Result<Lexeme, LexError>
    requires within { from < length text.now }
    requires starts { is_digit (slice_index text.now from) ≡ true }
    ensures found { IfOk result (λ l. Reads text.now from l.kind l.to) }
    ensures refused { IfErr result (λ e. OnNotYet e (NoElement text.now from)) }
{
    let bytes = text.as_bytes();
    let to = from + bytes::number_len(&bytes[from..]);
    let Some(value) = number_value(&bytes[from..to]) else {
        return Err(LexError::NotYet);
    };
    Ok(Lexeme {
        kind: TokenKind::Number(value),
        to,
    })
}

// The text that begins at a quote.
fn read_text(alloc: Global, text: &str, from: usize) -> Result<Lexeme, LexError>
    requires within { from < length text.now }
    requires starts { slice_index text.now from ≡ 34 }
    ensures found { IfOk result (λ l. Reads text.now from l.kind l.to) }
    ensures refused { IfErr result (λ e. OnNotYet e (NoElement text.now from)) }
{
    let bytes = text.as_bytes();
    let start = from + 1;
    let end = start + bytes::text_len(&bytes[start..]);
    if end >= bytes.len() {
        return Err(LexError::NotYet);
    }
    if bytes[end] != b'"' {
        return Err(LexError::NotYet);
    }
    let inside = PlainString::from_str(alloc, &text[start..end])?;
    Ok(Lexeme {
        kind: TokenKind::Text(inside),
        to: end + 1,
    })
}

// The mark that stands at a byte that begins nothing else.
fn read_mark(text: &str, from: usize) -> Result<Lexeme, LexError>
    requires within { from < length text.now }
    requires no_space { ¬ (slice_index text.now from ≡ 32) }
    requires no_line_feed { ¬ (slice_index text.now from ≡ 10) }
    requires no_name { is_name_start (slice_index text.now from) ≡ false }
    requires no_number { is_digit (slice_index text.now from) ≡ false }
    requires no_text { ¬ (slice_index text.now from ≡ 34) }
    ensures found { IfOk result (λ l. Reads text.now from l.kind l.to) }
    ensures refused { IfErr result (λ e. OnNotYet e (NoElement text.now from)) }
{
    let Some(mark) = mark_of(text.as_bytes()[from]) else {
        return Err(LexError::NotYet);
    };
    Ok(Lexeme {
        kind: TokenKind::Mark(mark),
        to: from + 1,
    })
}

// The mark of a byte, if it has one.
fn mark_of(byte: u8) -> Option<Mark>
    ensures { MatchOption result ((m : Mark) → ¬ (byte_of m ≡ byte)) (λ m. byte_of m ≡ byte) }
{
    match byte {
        b'=' => Some(Mark::Equals),
        b';' => Some(Mark::Semicolon),
        b'(' => Some(Mark::Open),
        b')' => Some(Mark::Close),
        b',' => Some(Mark::Comma),
        b'+' => Some(Mark::Plus),
        b'-' => Some(Mark::Minus),
        b'*' => Some(Mark::Star),
        b'.' => Some(Mark::Dot),
        _ => None,
    }
}
