//! Frames.

ghost use Rattle.std.specs.Prelude.{◌≡◌, OnOk};
ghost use Rattle.host_machine.specs.Terms.{now, waits};
ghost use Rattle.host_machine.specs.Moves.{Popped, set_to};

use crate::focus::Focus;
use crate::item::Item;
use host_nodes::NodeId;
use host_values::HostValue;
use std::alloc::AllocError;
use std::marker::Model;

/// A function of a script, or the script itself, that is running: what waits in it, what is at work, and its own bindings, of which an
/// unset one has no value. It can't be cloned.
#[derive(Drop)]
pub struct HostFrame {
    pub(crate) items: Vec<Item>,
    pub(crate) focus: Focus,
    pub(crate) locals: Vec<Option<HostValue>>,
}

impl Model for HostFrame {
    ghost use Rattle.std.specs.Prelude.{reverse};
    ghost use Rattle.host_machine.specs.Terms.{Frame};

    ghost Value = { Frame };

    ghost view = { λ f. record { items = reverse f.items.items; focus = f.focus; locals = f.locals.items } };
}

impl HostFrame {
    // Puts the place at work where it is.
    #[inline]
    pub(crate) fn set(&mut self, focus: Focus)
        ensures { self.new ≡ set_to (now focus) self.old }
    {
        self.focus = focus;
    }

    // Takes the innermost item off.
    #[inline]
    pub(crate) fn pop(&mut self) -> Option<Item>
        ensures { Popped result self.old self.new }
    {
        self.items.pop()
    }

    // Waits in an item for what a node gives.
    #[inline]
    pub(crate) fn wait(&mut self, item: Item, node: NodeId) -> Result<(), AllocError>
        ensures { OnOk result (self.new ≡ set_to (waits item node) self.old) }
    {
        self.items.push(item)?;
        self.focus = Focus::Begin(node);
        Ok(())
    }
}
