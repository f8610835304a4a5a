//! Why bytes are no script.

ghost use Rattle.std.specs.Prelude.{◌≡◌, IfOk, string_bytes};
ghost use Rattle.host_reading.specs.Lines.{line_of};

use embed_base::PlainString;
use std::alloc::{AllocError, Global};

/// Why bytes are no script. Places are bytes of the text, counted from 0.
#[derive(Debug, Drop)]
pub enum Refusal {
    /// The bytes before this one are UTF-8, and no more of them are.
    NotUtf8(u64),
    /// No token begins or ends well at this byte.
    BadToken(u32),
    /// What begins with a digit at this byte is no number of the profile.
    NumberOutside(u32),
    /// No script goes on so from the token at this byte; or more tokens are missing, and this is the length of the text.
    Unexpected(u32),
    /// The token at this byte opens a construct too many.
    TooDeep(u32),
    /// The name at this byte is declared again in its scope.
    DeclaredTwice { name: PlainString, place: u32 },
}

/// The line that refuses a script, with its line feed.
pub fn refusal_line(alloc: Global, refusal: &Refusal) -> Result<String, AllocError>
    ensures { IfOk result (λ line. string_bytes line ≡ line_of refusal.now) }
{
    match refusal {
        Refusal::NotUtf8(place) => format!(in alloc; "script: not UTF-8 at {place}\n"),
        Refusal::BadToken(place) => format!(in alloc; "script: bad token at {place}\n"),
        Refusal::NumberOutside(place) => format!(in alloc; "script: number outside at {place}\n"),
        Refusal::Unexpected(place) => format!(in alloc; "script: unexpected at {place}\n"),
        Refusal::TooDeep(place) => format!(in alloc; "script: too deep at {place}\n"),
        Refusal::DeclaredTwice { name, place } => {
            let name = name.as_str();
            format!(in alloc; "script: {name} declared twice at {place}\n")
        }
    }
}
