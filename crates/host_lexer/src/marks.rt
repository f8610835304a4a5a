ghost use Rattle.std.specs.Prelude.{◌≡◌, ℕ, IfSome, length};
ghost use Rattle.host_lexer.specs.Spellings.{mark_chars};
ghost use Rattle.host_lexer.specs.Steps as steps;

use crate::token::Mark;

// The mark of one character that begins no longer mark.
fn short_mark(c: char) -> Option<Mark>
    ensures value { result ≡ steps.short_mark c }
    ensures spelt { IfSome result (λ m. (b d : ℕ) → steps.IsSpelt m c b d) }
{
    match c {
        '{' => Some(Mark::OpenBrace),
        '}' => Some(Mark::CloseBrace),
        '(' => Some(Mark::OpenParen),
        ')' => Some(Mark::CloseParen),
        '[' => Some(Mark::OpenBracket),
        ']' => Some(Mark::CloseBracket),
        '.' => Some(Mark::Dot),
        ';' => Some(Mark::Semicolon),
        ',' => Some(Mark::Comma),
        ':' => Some(Mark::Colon),
        '*' => Some(Mark::Star),
        '/' => Some(Mark::Slash),
        '%' => Some(Mark::Percent),
        _ => None,
    }
}

/// The longest mark that begins with a character, before two more; `\0` stands for none.
pub fn mark_of(first: char, second: char, third: char) -> Option<Mark>
    ensures value { result ≡ steps.mark_front first second third }
    ensures spelt { IfSome result (λ m. steps.IsSpelt m first second third) }
{
    match first {
        '=' if second == '=' && third == '=' => Some(Mark::StrictEquals),
        '=' => Some(Mark::Equals),
        '!' if second == '=' && third == '=' => Some(Mark::StrictNotEquals),
        '!' => Some(Mark::Not),
        '<' if second == '=' => Some(Mark::LessEquals),
        '<' => Some(Mark::Less),
        '>' if second == '=' => Some(Mark::GreaterEquals),
        '>' => Some(Mark::Greater),
        '+' if second == '+' => Some(Mark::Increment),
        '+' => Some(Mark::Plus),
        '-' if second == '-' => Some(Mark::Decrement),
        '-' => Some(Mark::Minus),
        '&' if second == '&' => Some(Mark::And),
        '|' if second == '|' => Some(Mark::Or),
        _ => short_mark(first),
    }
}

/// How many characters a mark has.
pub fn mark_len(mark: Mark) -> usize
    ensures { result ≡ length (mark_chars mark) }
{
    match mark {
        Mark::StrictEquals | Mark::StrictNotEquals => 3,
        Mark::LessEquals
        | Mark::GreaterEquals
        | Mark::And
        | Mark::Or
        | Mark::Increment
        | Mark::Decrement => 2,
        _ => 1,
    }
}
