ghost use Rattle.std.specs.Prelude.{◌≡◌, ◌≤◌, length, slice_index};
ghost use Rattle.std.specs.List.{prefix_len};
ghost use Rattle.host_lexer.specs.Characters as spec;

use unicode_ident::{is_xid_continue, is_xid_start};

/// White space that is no line end.
pub fn is_space(c: char) -> bool
    ensures { result ≡ spec.is_space c }
{
    c == '\t' || c == '\u{b}' || c == '\u{c}' || c == ' ' || c == '\u{a0}' || c == '\u{feff}'
}

/// A line feed or a carriage return.
pub fn is_line_end(c: char) -> bool
    ensures { result ≡ spec.is_line_end c }
{
    c == '\n' || c == '\r'
}

/// A line separator or a paragraph separator.
pub fn is_separator(c: char) -> bool
    ensures { result ≡ spec.is_separator c }
{
    c == '\u{2028}' || c == '\u{2029}'
}

/// What a name begins with.
pub fn is_name_start(c: char) -> bool
    ensures { result ≡ spec.is_name_start c }
{
    c == '$' || c == '_' || is_xid_start(c)
}

/// What a name goes on with.
pub fn is_name_part(c: char) -> bool
    ensures { result ≡ spec.is_name_part c }
{
    c == '$' || is_xid_continue(c)
}

/// What a run that begins with a digit goes on with.
pub fn is_number_part(c: char) -> bool
    ensures { result ≡ spec.is_number_part c }
{
    c == '.' || is_name_part(c)
}

/// What a line's comment goes on with.
pub fn is_comment_part(c: char) -> bool
    ensures { result ≡ spec.is_comment_part c }
{
    !(is_line_end(c) || is_separator(c))
}

/// `"` or `'`.
pub fn is_quote(c: char) -> bool
    ensures { result ≡ spec.is_quote c }
{
    c == '"' || c == '\''
}

/// How many of the first characters go on with a name.
pub fn name_len(chars: &[char]) -> usize
    ensures len { result ≡ prefix_len spec.is_name_part chars.now }
    ensures bound { result ≤ length chars.now }
{
    chars.iter().take_while(|c| is_name_part(**c)).count()
}

/// How many of the first characters go on with a number's run.
pub fn number_len(chars: &[char]) -> usize
    ensures len { result ≡ prefix_len spec.is_number_part chars.now }
    ensures bound { result ≤ length chars.now }
{
    chars.iter().take_while(|c| is_number_part(**c)).count()
}

/// How many of the first characters go on with a line's comment.
pub fn comment_len(chars: &[char]) -> usize
    ensures len { result ≡ prefix_len spec.is_comment_part chars.now }
    ensures bound { result ≤ length chars.now }
{
    chars.iter().take_while(|c| is_comment_part(**c)).count()
}

/// A character of some, or `\0` behind their end.
pub fn char_or_null(chars: &[char], at: usize) -> char
    ensures { result ≡ slice_index chars.now at }
{
    if at < chars.len() { chars[at] } else { '\0' }
}
