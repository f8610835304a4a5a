ghost use Rattle.std.specs.Prelude.{◌≡◌, [], ◌++◌, ◌<◌, ◌^◌, IfOk, OnOk, OnErr, string_bytes, length};

use std::alloc::{AllocError, Global};
use std::marker::Model;

/// A `String` that contracts see as the list of its bytes, so that data with text in it is plain data.
#[derive(Debug, Drop)]
pub struct PlainString {
    text: String,
}

impl Model for PlainString {
    ghost use Rattle.std.specs.Prelude.{ℕ, List, string_bytes};

    ghost Value = { List ℕ };

    ghost view = { λ s. string_bytes s.text };
}

impl PlainString {
    /// The empty text. It takes no memory.
    pub fn new(alloc: Global) -> PlainString
        ensures { result ≡ [] }
    {
        PlainString {
            text: String::new(alloc),
        }
    }

    /// A copy of `text`.
    pub fn from_str(alloc: Global, text: &str) -> Result<PlainString, AllocError>
        ensures { IfOk result (λ s. s ≡ text.now) }
    {
        let text = String::from_str(alloc, text)?;
        Ok(PlainString { text })
    }

    /// The text of a `String`, whose bytes aren't copied.
    pub fn from_string(text: String) -> PlainString
        ensures { result ≡ string_bytes text }
    {
        PlainString { text }
    }

    /// The text itself, lent.
    pub fn as_str(&self) -> &str
        ensures { result.now ≡ self.now }
    {
        self.text.as_str()
    }

    /// Adds `more` at the end.
    pub fn push_str(&mut self, more: &str) -> Result<(), AllocError>
        ensures ok { OnOk result (self.new ≡ self.old ++ more.now) }
        ensures err { OnErr result (self.new ≡ self.old) }
    {
        self.text.push_str(more)
    }
}
