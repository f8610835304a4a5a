ghost use Rattle.std.specs.Prelude.{◌≡◌, ℕ, List, ◌∷◌, true, false, ◌+◌, ◌<◌, ◌≤◌, MatchOption, IfOk, IfErr, IsTrue, length, slice_index, encode_utf8_all};
ghost use Rattle.std.specs.Char.{IsScalar, is_digit};
ghost use Rattle.std.specs.List.{prefix_len};
ghost use Rattle.host_lexer.specs.Characters.{is_quote, HasFirst};
ghost use Rattle.host_lexer.specs.Numerals.{value_in, AreDigits};
ghost use Rattle.host_lexer.specs.Steps.{HasPiece, NoPiece, HasDigits, NoDigits, Begins, Refuses};
ghost use Rattle.host_lexer.specs.Texts.{is_letter, code_of_letter};

use crate::characters::{char_or_null, is_line_end};
use crate::lexeme::{Failure, Lexeme};
use crate::numbers::digits_value;
use crate::token::TokenKind;
use embed_base::PlainString;
use std::alloc::{AllocError, Global};

// The greatest code of a character.
const GREATEST_CODE: u128 = 0x10_ffff;

// What stands for one character of a text: how many characters it has, and that character.
#[derive(Drop)]
struct Piece {
    len: usize,
    code: char,
}

// The character whose code has these hexadecimal digits, if there is one.
fn char_of(digits: &[char]) -> Option<char>
    ensures none { MatchOption result (AreDigits 16 digits.now → IsScalar (value_in 16 digits.now) → ⊥) (λ c. AreDigits 16 digits.now) }
    ensures some { MatchOption result (Unit {0}) (λ c. IsScalar (value_in 16 digits.now)) }
    ensures code { MatchOption result (Unit {0}) (λ c. c ≡ value_in 16 digits.now) }
{
    let value = digits_value(digits, 16, GREATEST_CODE)?;
    char::from_u32(value as u32)
}

// How many of the first characters are hexadecimal digits.
fn hex_len(chars: &[char]) -> usize
    ensures len { result ≡ prefix_len (λ c. is_digit c 16) chars.now }
    ensures bound { result ≤ length chars.now }
{
    chars.iter().take_while(|c| c.is_digit(16)).count()
}

// The character that stands after so many characters as so many hexadecimal digits.
fn char_at(chars: &[char], before: usize, digits: usize) -> Option<char>
    requires { before ≤ length chars.now }
    ensures { MatchOption result (NoDigits chars.now before digits) (λ c. HasDigits chars.now before digits c) }
{
    if chars.len() - before < digits {
        return None;
    }
    char_of(&chars[before..before + digits])
}

// The escape `\u{H..}`.
fn braced(chars: &[char]) -> Option<Piece>
    requires begins { (rest : List ℕ) × (chars.now ≡ 92 ∷ 117 ∷ 123 ∷ rest) }
    ensures none { (q : ℕ) → MatchOption result (NoPiece q chars.now) (λ p. HasPiece q chars.now p.len p.code) }
{
    let len = hex_len(&chars[3..]);
    if len == 0 {
        return None;
    }
    let end = 3 + len;
    if end >= chars.len() {
        return None;
    }
    if chars[end] != '}' {
        return None;
    }
    let Some(code) = char_at(chars, 3, len) else {
        return None;
    };
    Some(Piece { len: end + 1, code })
}

// The escape `\xHH` or `\uHHHH`, with so many digits.
fn fixed(chars: &[char], digits: usize) -> Option<Piece>
    requires { 2 ≤ length chars.now }
    ensures { MatchOption result (NoDigits chars.now 2 digits) (λ p. HasDigits chars.now 2 digits p.code × (p.len ≡ 2 + digits)) }
{
    let code = char_at(chars, 2, digits)?;
    Some(Piece {
        len: 2 + digits,
        code,
    })
}

// The character that a letter after `\` stands for.
fn letter(c: char) -> Option<char>
    ensures { MatchOption result (is_letter c ≡ false) (λ d. (is_letter c ≡ true) × (d ≡ code_of_letter c)) }
{
    match c {
        'n' => Some('\n'),
        't' => Some('\t'),
        'r' => Some('\r'),
        '\\' | '"' | '\'' => Some(c),
        _ => None,
    }
}

// The escape of two characters.
fn short(chars: &[char]) -> Option<Piece>
    requires begins { (c : ℕ) × (rest : List ℕ) × (chars.now ≡ 92 ∷ c ∷ rest) × (¬ (c ≡ 120)) × (¬ (c ≡ 117)) × (¬ (c ≡ 48)) }
    ensures { (q : ℕ) → MatchOption result (NoPiece q chars.now) (λ p. HasPiece q chars.now p.len p.code) }
{
    let Some(code) = letter(chars[1]) else {
        return None;
    };
    Some(Piece { len: 2, code })
}

// The escape that begins some characters with its `\`.
fn escape(chars: &[char]) -> Option<Piece>
    requires { (rest : List ℕ) × (chars.now ≡ 92 ∷ rest) }
    ensures { (q : ℕ) → MatchOption result (NoPiece q chars.now) (λ p. HasPiece q chars.now p.len p.code) }
{
    if chars.len() < 2 {
        return None;
    }
    let next = char_or_null(chars, 2);
    match chars[1] {
        'x' => fixed(chars, 2),
        'u' if next == '{' => braced(chars),
        'u' => fixed(chars, 4),
        '0' if next.is_ascii_digit() => None,
        '0' => Some(Piece { len: 2, code: '\0' }),
        _ => short(chars),
    }
}

// What stands for one character and begins some characters, the first of which is no quote of their text.
fn read_piece(chars: &[char]) -> Option<Piece>
    requires { 0 < length chars.now }
    ensures { (q : ℕ) → ¬ (slice_index chars.now 0 ≡ q) → MatchOption result (NoPiece q chars.now) (λ p. HasPiece q chars.now p.len p.code) }
{
    let first = chars[0];
    if first == '\\' {
        return escape(chars);
    }
    if is_line_end(first) {
        return None;
    }
    Some(Piece {
        len: 1,
        code: first,
    })
}

/// The text that begins with a quote.
pub fn read_text(alloc: Global, chars: &[char]) -> Result<Lexeme, Failure>
    requires { HasFirst is_quote chars.now }
    ensures found { IfOk result (λ l. Begins chars.now l.len l.kind l.line_end) }
    ensures refused { IfErr result (λ e. Refuses e chars.now) }
{
    let quote = chars[0];
    let mut text = String::new(alloc);
    let mut at = 1;
    while at < chars.len() {
        if chars[at] == quote {
            let text = PlainString::from_string(text);
            return Ok(Lexeme::token(at + 1, TokenKind::Text(text)));
        }
        let Some(Piece { len, code }) = read_piece(&chars[at..]) else {
            return Err(Failure::NoToken);
        };
        text.push(code)?;
        at += len;
    }
    Err(Failure::NoToken)
}
