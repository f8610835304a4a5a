ghost use Rattle.std.specs.Prelude.{◌≡◌, ◌↔◌, IsTrue, ℕ, List, ◌∷◌, ◌++◌, ◌+◌, false, true, ◌<◌, ◌≤◌, ◌^◌, OnOk, IfOk, IfErr, IfSome, length, slice_index, slice_range, All, encode_utf8_all};
ghost use Rattle.std.specs.Char.{is_digit};
ghost use Rattle.host_lexer.specs.Characters.{HasFirst, is_name_start};
ghost use Rattle.host_lexer.specs.Tokens as spec;
ghost use Rattle.host_lexer.specs.Tokens.{size_of, token_at, after_next, IsRead, Reading, told, InOrder, Spells};
ghost use Rattle.host_lexer.specs.Steps.{Begins, Refuses, IsRefusal, class_of, marked};
ghost use Rattle.host_lexer.specs.declared.token.LexError.TheVariants as errors;

use crate::characters::{self, char_or_null};
use crate::comments::{read_block_comment, read_line_comment};
use crate::lexeme::{Failure, Lexeme};
use crate::marks::{mark_len, mark_of};
use crate::numbers::number_kind;
use crate::texts::read_text;
use crate::token::{LexError, Token, TokenKind};
use crate::words::word_of;
use embed_base::PlainString;
use std::alloc::{AllocError, Global};

// The bytes of characters.
fn text_of(alloc: Global, chars: &[char]) -> Result<PlainString, AllocError>
    ensures { IfOk result (λ s. s ≡ encode_utf8_all chars.now) }
{
    let mut text = String::new(alloc);
    for c in chars {
        text.push(*c)?;
    }
    Ok(PlainString::from_string(text))
}

// How many bytes characters have.
fn byte_len(chars: &[char]) -> usize
    requires { size_of chars.now < 2 ^ 32 }
    ensures { result ≡ size_of chars.now }
{
    let mut len = 0;
    for c in chars {
        len += c.len_utf8();
    }
    len
}

// The name or word that begins some characters.
fn read_name(alloc: Global, chars: &[char]) -> Result<Lexeme, Failure>
    requires { HasFirst is_name_start chars.now }
    ensures found { IfOk result (λ l. Begins chars.now l.len l.kind l.line_end) }
    ensures refused { IfErr result (λ e. Refuses e chars.now) }
{
    let len = characters::name_len(chars);
    let name = text_of(alloc, &chars[..len])?;
    if let Some(word) = word_of(name.as_str()) {
        return Ok(Lexeme::token(len, TokenKind::Word(word)));
    }
    Ok(Lexeme::token(len, TokenKind::Name(name)))
}

// The number that begins some characters with a digit.
fn read_number(chars: &[char]) -> Result<Lexeme, Failure>
    requires { HasFirst (λ c. is_digit c 10) chars.now }
    ensures found { IfOk result (λ l. Begins chars.now l.len l.kind l.line_end) }
    ensures refused { IfErr result (λ e. Refuses e chars.now) }
{
    let len = characters::number_len(chars);
    let Some(kind) = number_kind(&chars[..len]) else {
        return Err(Failure::NoNumber);
    };
    Ok(Lexeme::token(len, kind))
}

// The mark that begins some characters which begin with nothing else.
fn read_mark(chars: &[char]) -> Result<Lexeme, Failure>
    requires some { 0 < length chars.now }
    requires other { class_of (slice_index chars.now 0) (slice_index chars.now 1) ≡ marked }
    ensures found { IfOk result (λ l. Begins chars.now l.len l.kind l.line_end) }
    ensures refused { IfErr result (λ e. Refuses e chars.now) }
{
    let Some(mark) = mark_of(chars[0], char_or_null(chars, 1), char_or_null(chars, 2)) else {
        return Err(Failure::NoToken);
    };
    Ok(Lexeme::token(mark_len(mark), TokenKind::Mark(mark)))
}

// The comment or mark that begins some characters with `/`.
fn read_slash(chars: &[char]) -> Result<Lexeme, Failure>
    requires some { 0 < length chars.now }
    requires slash { slice_index chars.now 0 ≡ 47 }
    ensures found { IfOk result (λ l. Begins chars.now l.len l.kind l.line_end) }
    ensures refused { IfErr result (λ e. Refuses e chars.now) }
{
    let second = char_or_null(chars, 1);
    if second == '/' {
        return Ok(read_line_comment(chars));
    }
    if second == '*' {
        return read_block_comment(chars);
    }
    read_mark(chars)
}

// The element that begins some characters.
fn read_element(alloc: Global, chars: &[char]) -> Result<Lexeme, Failure>
    requires { 0 < length chars.now }
    ensures found { IfOk result (λ l. Begins chars.now l.len l.kind l.line_end) }
    ensures refused { IfErr result (λ e. Refuses e chars.now) }
{
    let first = chars[0];
    if characters::is_name_start(first) {
        return read_name(alloc, chars);
    }
    if first.is_digit(10) {
        return read_number(chars);
    }
    if characters::is_space(first) {
        return Ok(Lexeme::blank(1, false));
    }
    if characters::is_line_end(first) {
        return Ok(Lexeme::blank(1, true));
    }
    if characters::is_quote(first) {
        return read_text(alloc, chars);
    }
    if first == '/' {
        return read_slash(chars);
    }
    read_mark(chars)
}

// Adds an element's token, if it makes one; tells whether a line end stands before what follows.
fn add(
    found: &mut Vec<Token>,
    kind: Option<TokenKind>,
    from: usize,
    to: usize,
    after_line: bool,
    line_end: bool,
) -> Result<bool, AllocError>
    requires low { from < 2 ^ 32 }
    requires high { to < 2 ^ 32 }
    ensures token { (size : ℕ) → to ≡ from + size → OnOk result (found.new.items ≡ found.old.items ++ token_at from size after_line kind) }
    ensures after { IfOk result (λ after. after ≡ after_next after_line line_end kind) }
{
    let Some(kind) = kind else {
        return Ok(after_line || line_end);
    };
    found.push(Token {
        kind,
        from: from as u32,
        to: to as u32,
        after_line,
    })?;
    Ok(false)
}

// Where a failure stands that comes at a byte.
fn refusal(failure: Failure, chars: &[char], place: usize) -> LexError
    requires small { place + size_of chars.now < 2 ^ 32 }
    requires refused { Refuses failure chars.now }
    ensures { IsRefusal chars.now place failure result }
{
    match failure {
        Failure::NoToken => LexError::BadToken(place as u32),
        Failure::Separator(before) => {
            LexError::BadToken((place + byte_len(&chars[..before + 2])) as u32)
        }
        Failure::NoNumber => LexError::NumberOutside(place as u32),
        Failure::NoMemory => LexError::NoMemory,
    }
}

// The tokens of the characters of a text.
fn tokens_of(alloc: Global, chars: &[char]) -> Result<Vec<Token>, LexError>
    requires { size_of chars.now < 2 ^ 32 }
    ensures { IfSome (told result) (IsRead (encode_utf8_all chars.now)) }
{
    let mut found = Vec::new(alloc);
    let mut at = 0;
    let mut place = 0;
    let mut after_line = false;
    while at < chars.len() {
        let rest = &chars[at..];
        match read_element(alloc, rest) {
            Err(failure) => return Err(refusal(failure, rest, place)),
            Ok(
                Lexeme {
                    len,
                    kind,
                    line_end,
                },
            ) => {
                let to = place + byte_len(&rest[..len]);
                after_line = add(&mut found, kind, place, to, after_line, line_end)?;
                at += len;
                place = to;
            }
        }
    }
    Ok(found)
}

// The characters of a text.
fn characters_of(alloc: Global, text: &str) -> Result<Vec<char>, AllocError>
    ensures { IfOk result (λ cs. encode_utf8_all cs.items ≡ text.now) }
{
    text.chars().collect(alloc)
}

/// The tokens of a script's text, from the first to the last, with white space and comments left out (ECMA-262,
/// section 12, cut to the profile). `BadToken` and `NumberOutside` tell the byte of the first place where no token begins
/// or ends well, or where what begins with a digit is no number of the profile.
pub fn tokens(alloc: Global, text: &str) -> Result<Vec<Token>, LexError>
    requires { length text.now < 2 ^ 32 }

    // What is answered is what the text is read as.
    ensures read { IfSome (told result) (IsRead text.now) }

    // What the text is read as is answered, unless memory runs out.
    ensures only { (reading : Reading) → IsRead text.now reading → IfSome (told result) (λ r. r ≡ reading) }

    // The tokens stand in order, apart and within the text, and each kind is one that can be.
    ensures spans { IfOk result (λ ts. InOrder 0 (length text.now) ts.items) }

    // The bytes of the text between a token's ends spell it.
    ensures spelled { IfOk result (λ ts. All (λ t. Spells (slice_range text.now t.from t.to) t.kind) ts.items) }
{
    let chars = characters_of(alloc, text)?;
    tokens_of(alloc, chars.as_slice())
}
