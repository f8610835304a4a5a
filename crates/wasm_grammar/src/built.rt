//! What reading a module builds beside the values that it gives.

ghost use Rattle.std.specs.Prelude.{◌≡◌, length};
ghost use Rattle.wasm_grammar.specs.Leaves.{with_leaf};

use sqlite_items::Items;
use wasm_syntax::Instr;

/// What the profile leaves out of WebAssembly: floating types and instructions, and vector ones.
#[derive(Clone, Copy, PartialEq, Eq, Debug)]
pub enum Foreign {
    Float,
    Simd,
}

/// A foreign type or instruction in a module, and how many bytes of the file its first byte begins.
#[derive(Clone, Copy)]
pub struct Leaf {
    pub left: u64,
    pub what: Foreign,
}

/// The blocks that have ended, by their numbers, the first foreign leaf, and whether an instruction of a function's code names a
/// data segment.
#[derive(Drop)]
pub struct Built {
    pub blocks: Items<Items<Instr>>,
    pub first: Option<Leaf>,
    pub data_used: bool,
}

/// Notes a leaf, where it is the first one.
pub fn note(built: &mut Built, leaf: Leaf)
    ensures noted { built.new ≡ with_leaf built.old leaf }
    ensures kept { length built.new.blocks ≡ length built.old.blocks }
{
    if built.first.is_none() {
        built.first = Some(leaf);
    }
}
