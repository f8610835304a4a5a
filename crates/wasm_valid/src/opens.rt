//! The open blocks of a body.

ghost use Rattle.std.specs.Prelude.{◌≡◌, ◌∷◌, reverse, slice_get, length};
ghost use Rattle.std.specs.Option.{option_copied};
ghost use Rattle.wasm_valid.specs.Places.{labels_at};

use crate::operands::Saved;
use crate::types::{Types, types_of};
use wasm_syntax::{BlockId, Module, ValType};

/// The blocks that may be nested in one another in a body.
pub const MOST_NESTED: usize = 256;

/// The labels that there may be at a place: those of the blocks, and the body's.
pub const MOST_LABELS: usize = MOST_NESTED + 1;

/// An open block: its next instruction, its label and its type.
#[derive(Clone, Copy)]
pub struct Open {
    pub block: BlockId,
    pub at: usize,
    pub label: Types,
    pub params: Types,
    pub results: Types,
    /// The second block of an `if`, while it is still to come.
    pub second: Option<BlockId>,
}

/// An open block round the innermost one, and where its operands begin.
#[derive(Clone, Copy)]
pub struct Outer {
    pub open: Open,
    pub saved: Saved,
}

/// The open blocks, the body among them.
#[derive(Drop)]
pub struct Opens {
    /// The innermost one.
    pub top: Open,
    /// Those round it, the innermost last.
    pub outer: Vec<Outer>,
}

impl Opens {
    /// The types of a label, which counts the open blocks from the innermost on.
    pub fn label<'a>(&self, module: &'a Module, index: u32) -> Option<&'a [ValType]>
        ensures { option_copied result ≡ slice_get (labels_at «module».now self.now) index }
    {
        let index = index as usize;
        if index == 0 {
            return Some(types_of(module, self.top.label));
        }
        if index > self.outer.len() {
            return None;
        }
        let outer = self.outer[self.outer.len() - index];
        Some(types_of(module, outer.open.label))
    }
}
