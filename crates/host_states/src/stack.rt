ghost use Rattle.std.specs.Prelude.{◌≡◌, ◌∷◌, [], OnOk};
ghost use Rattle.host_states.specs.Stacks.{top_of, rest_of};

use crate::state::Open;
use std::alloc::{AllocError, Global};
use std::marker::Model;

/// What is open, the innermost on top. Contracts see it as a list that begins with the top.
#[derive(Drop)]
pub struct Stack {
    items: Vec<Open>,
}

impl Model for Stack {
    ghost use Rattle.std.specs.Prelude.{List, reverse};
    ghost use Rattle.host_states.specs.declared.state.Open.{Open};

    ghost Value = { List Open };

    ghost view = { λ stack. reverse stack.items.items };
}

impl Stack {
    /// The empty stack. It takes no memory.
    pub fn new(alloc: Global) -> Stack
        ensures { result ≡ [] }
    {
        Stack {
            items: Vec::new(alloc),
        }
    }

    /// Puts an item on top.
    pub fn push(&mut self, item: Open) -> Result<(), AllocError>
        ensures { OnOk result (self.new ≡ item ∷ self.old) }
    {
        self.items.push(item)?;
        Ok(())
    }

    /// Takes the top away.
    pub fn pop(&mut self) -> Option<Open>
        ensures top { result ≡ top_of self.old }
        ensures rest { self.new ≡ rest_of self.old }
    {
        self.items.pop()
    }

    /// The top, if there is one.
    pub fn top(&self) -> Option<Open>
        ensures { result ≡ top_of self.now }
    {
        self.items.last().copied()
    }
}
