ghost use Rattle.std.specs.Prelude.{◌≡◌, ◌≤◌, length};
ghost use Rattle.std.specs.List.{prefix_len};
ghost use Rattle.small_lexer.specs.Tokens as spec;

/// A decimal digit.
pub fn is_digit(byte: u8) -> bool
    ensures { result ≡ spec.is_digit byte }
{
    byte.is_ascii_digit()
}

/// What a name begins with: a letter, `$` or `_`.
pub fn is_name_start(byte: u8) -> bool
    ensures { result ≡ spec.is_name_start byte }
{
    byte.is_ascii_alphabetic() || byte == b'$' || byte == b'_'
}

/// What a name goes on with.
pub fn is_name_part(byte: u8) -> bool
    ensures { result ≡ spec.is_name_part byte }
{
    is_name_start(byte) || is_digit(byte)
}

/// What the longest run goes on with that may be a number.
pub fn is_number_part(byte: u8) -> bool
    ensures { result ≡ spec.is_number_part byte }
{
    is_name_part(byte) || byte == b'.'
}

/// What may stand between the quotes of a text.
pub fn is_text_part(byte: u8) -> bool
    ensures { result ≡ spec.is_text_part byte }
{
    matches!(byte, b' '..=b'~') && byte != b'"' && byte != b'\\'
}

/// How many of the first bytes go on with a name.
pub fn name_len(bytes: &[u8]) -> usize
    ensures len { result ≡ prefix_len spec.is_name_part bytes.now }
    ensures bound { result ≤ length bytes.now }
{
    bytes.iter().take_while(|byte| is_name_part(**byte)).count()
}

/// How many of the first bytes go on with a number's run.
pub fn number_len(bytes: &[u8]) -> usize
    ensures len { result ≡ prefix_len spec.is_number_part bytes.now }
    ensures bound { result ≤ length bytes.now }
{
    bytes
        .iter()
        .take_while(|byte| is_number_part(**byte))
        .count()
}

/// How many of the first bytes may stand in a text.
pub fn text_len(bytes: &[u8]) -> usize
    ensures len { result ≡ prefix_len spec.is_text_part bytes.now }
    ensures bound { result ≤ length bytes.now }
{
    bytes.iter().take_while(|byte| is_text_part(**byte)).count()
}
