ghost use Rattle.std.specs.Prelude.{◌≡◌, ℕ, List, ◌∷◌, ◌<◌, ◌≤◌, not, MatchOption, IfOk, IfErr, length};
ghost use Rattle.std.specs.List.{prefix_len, list_any};
ghost use Rattle.host_lexer.specs.Characters as spec;
ghost use Rattle.host_lexer.specs.Steps.{EndsIn, NeverEnds, Begins, Refuses};

use crate::characters::{comment_len, is_line_end, is_separator};
use crate::lexeme::{Failure, Lexeme};

// Where the first `*/` begins.
fn end_of_inside(chars: &[char]) -> Option<usize>
    ensures { MatchOption result (NeverEnds chars.now) (λ n. EndsIn chars.now n) }
{
    let mut at = 0;
    while chars.len() - at > 1 {
        if chars[at] == '*' && chars[at + 1] == '/' {
            return Some(at);
        }
        at += 1;
    }
    None
}

// How many of the first characters are no line separators.
fn clean_len(inside: &[char]) -> usize
    ensures len { result ≡ prefix_len (λ c. not (spec.is_separator c)) inside.now }
    ensures bound { result ≤ length inside.now }
{
    inside.iter().take_while(|c| !is_separator(**c)).count()
}

// Whether a line end is among some characters.
fn has_line_end(inside: &[char]) -> bool
    ensures { result ≡ list_any spec.is_line_end inside.now }
{
    inside.iter().any(|c| is_line_end(*c))
}

/// The comment that begins with `//`.
pub fn read_line_comment(chars: &[char]) -> Lexeme
    requires { (rest : List ℕ) × (chars.now ≡ 47 ∷ 47 ∷ rest) }
    ensures { Begins chars.now result.len result.kind result.line_end }
{
    Lexeme::blank(2 + comment_len(&chars[2..]), false)
}

/// The comment that begins with `/*`.
pub fn read_block_comment(chars: &[char]) -> Result<Lexeme, Failure>
    requires { (rest : List ℕ) × (chars.now ≡ 47 ∷ 42 ∷ rest) }
    ensures found { IfOk result (λ l. Begins chars.now l.len l.kind l.line_end) }
    ensures refused { IfErr result (λ e. Refuses e chars.now) }
{
    let body = &chars[2..];
    let Some(len) = end_of_inside(body) else {
        return Err(Failure::NoToken);
    };
    let inside = &body[..len];
    let before = clean_len(inside);
    if before < len {
        return Err(Failure::Separator(before));
    }
    Ok(Lexeme::blank(len + 4, has_line_end(inside)))
}
