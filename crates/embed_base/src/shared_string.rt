ghost use Rattle.std.specs.Prelude.{◌≡◌, ◌++◌, IfOk, nat_eq, string_bytes};
ghost use Rattle.std.specs.Cmp.{partial_equiv_from_equiv};
ghost use Rattle.std.specs.Cmp.Lexicographic.{nat_list_eq_equiv, pointwise};
ghost use Rattle.std.specs.Cmp.Rules.{hashing};
ghost use Rattle.std.specs.Hash as fed;
ghost use Rattle.std.proofs.Common.{rules};

use std::alloc::{AllocError, Global};
use std::hash::{Hash, Hasher};
use std::marker::Model;
use std::rc::Rc;

/// Text whose bytes are shared by its clones, and that contracts see as the list of its bytes.
#[derive(Debug, Drop)]
pub struct SharedString {
    text: Rc<String>,
}

impl Model for SharedString {
    ghost use Rattle.std.specs.Prelude.{ℕ, List, string_bytes};

    ghost Value = { List ℕ };

    ghost view = { λ s. string_bytes s.text.value };
}

impl SharedString {
    /// A copy of `text`, made once.
    pub fn from_str(alloc: Global, text: &str) -> Result<SharedString, AllocError>
        ensures { IfOk result (λ s. s ≡ text.now) }
    {
        let text = String::from_str(alloc, text)?;
        SharedString::from_string(alloc, text)
    }

    /// The text of a `String`, whose bytes aren't copied.
    pub fn from_string(alloc: Global, text: String) -> Result<SharedString, AllocError>
        ensures { IfOk result (λ s. s ≡ string_bytes text) }
    {
        let text = Rc::new(alloc, text)?;
        Ok(SharedString { text })
    }

    /// The text itself, lent.
    pub fn as_str(&self) -> &str
        ensures { result.now ≡ self.now }
    {
        self.text.as_str()
    }

    /// This text with `more` after it. The bytes that are there are copied only where a clone shares them.
    pub fn append(self, alloc: Global, more: &str) -> Result<SharedString, AllocError>
        ensures { IfOk result (λ s. s ≡ self ++ more.now) }
    {
        let SharedString { text } = self;
        let mut text = match Rc::try_unwrap(text) {
            Ok(alone) => alone,
            Err(shared) => String::from_str(alloc, shared.as_str())?,
        };
        text.push_str(more)?;
        SharedString::from_string(alloc, text)
    }
}

impl Clone for SharedString {
    ghost is_clone = { λ text copy. copy ≡ text };

    fn clone(&self) -> Result<SharedString, AllocError> {
        let text = self.text.clone()?;
        Ok(SharedString { text })
    }
}

impl PartialEq for SharedString {
    ghost eq = { pointwise nat_eq };

    ghost laws = { partial_equiv_from_equiv nat_list_eq_equiv };

    fn eq(&self, other: &SharedString) -> bool {
        self.as_str() == other.as_str()
    }
}

impl Eq for SharedString {
    ghost laws = { nat_list_eq_equiv };
}

impl Hash for SharedString {
    ghost hash_input = { fed.str };

    ghost respects_eq = { Prim.search (hashing, rules) };

    fn hash<H: Hasher>(&self, state: &mut H) {
        self.as_str().hash(state);
    }
}
