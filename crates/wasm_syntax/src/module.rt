//! Modules (WebAssembly Core 2.0, section 2.5).

ghost use Rattle.std.specs.Prelude.{◌≡◌, ◌<◌, length};

use crate::instructions::{BlockId, Instr};
use crate::name::Name;
use crate::types::{FuncType, GlobalType, Limit, TableType, ValType};
use sqlite_items::Items;

/// What an import asks for.
#[derive(Clone, Copy, PartialEq, Eq, Debug)]
pub enum ImportDesc {
    /// A function of the type with this index.
    Func(u32),
    Table(TableType),
    Mem(Limit),
    Global(GlobalType),
}

/// An import, by the two parts of its name.
#[derive(Debug, Drop)]
pub struct Import {
    pub module: Name,
    pub name: Name,
    pub desc: ImportDesc,
}

/// What an export gives: the thing of its kind with this index, where imports come first.
#[derive(Clone, Copy, PartialEq, Eq, Debug)]
pub enum ExportDesc {
    Func(u32),
    Table(u32),
    Mem(u32),
    Global(u32),
}

/// An export.
#[derive(Debug, Drop)]
pub struct Export {
    pub name: Name,
    pub desc: ExportDesc,
}

/// A function of a module's own: the index of its type, its locals other than its parameters as runs of one type each, and its
/// body.
#[derive(Debug, Drop)]
pub struct Func {
    pub ty: u32,
    pub locals: Items<(u32, ValType)>,
    pub body: BlockId,
}

/// A global of a module's own, with the expression that gives its first value.
#[derive(Clone, Copy, PartialEq, Eq, Debug)]
pub struct GlobalDef {
    pub ty: GlobalType,
    pub init: BlockId,
}

/// What becomes of a segment when its module is instantiated.
#[derive(Clone, Copy, PartialEq, Eq, Debug)]
pub enum Mode {
    /// It is copied into the table or memory of this index, from the place on that an expression gives, and dropped.
    Active { index: u32, offset: BlockId },
    /// It waits for an instruction that copies from it.
    Passive,
    /// It only declares functions as ones that may be referred to. No data segment has this mode.
    Declared,
}

/// An element segment: references of one type, each given by an expression.
#[derive(Debug, Drop)]
pub struct Elem {
    pub ty: ValType,
    pub items: Items<BlockId>,
    pub mode: Mode,
}

/// A data segment.
#[derive(Debug, Drop)]
pub struct Data {
    pub bytes: Items<u8>,
    pub mode: Mode,
}

/// A module. Sequences of instructions stand in `blocks`, and all else names them by their numbers.
#[derive(Debug, Drop)]
pub struct Module {
    pub types: Items<FuncType>,
    pub imports: Items<Import>,
    pub funcs: Items<Func>,
    pub tables: Items<TableType>,
    pub mems: Items<Limit>,
    pub globals: Items<GlobalDef>,
    pub exports: Items<Export>,
    /// The function that runs at instantiation.
    pub start: Option<u32>,
    pub elems: Items<Elem>,
    /// The number of data segments, where the module tells it before its code.
    pub data_count: Option<u32>,
    pub datas: Items<Data>,
    pub blocks: Items<Items<Instr>>,
}

impl Module {
    ghost use Rattle.wasm_syntax.specs.Blocks.{block_of};

    /// The instructions of a block, lent.
    pub fn block(&self, id: BlockId) -> &[Instr]
        requires { id.0 < length self.now.blocks }
        ensures { result.now ≡ block_of self.now id }
    {
        let blocks = self.blocks.as_slice();
        blocks[id.0 as usize].as_slice()
    }

    /// The instructions of a block, lent, for a number of which it isn't known that it has a block: one without a block has none.
    pub fn code(&self, id: BlockId) -> &[Instr]
        ensures { result.now ≡ block_of self.now id }
    {
        match self.blocks.as_slice().get(id.0 as usize) {
            Some(code) => code.as_slice(),
            None => &[],
        }
    }
}
