//! What the sections of a module hold.

ghost use Rattle.std.specs.Prelude.{◌≡◌, IfOk};
ghost use Rattle.wasm_grammar.specs.Sections.{held_place};
ghost use Rattle.wasm_grammar.specs.Module.{hold, no_parts};

use crate::functions::CodeEntry;
use sqlite_items::Items;
use std::alloc::Global;
use wasm_syntax::{Data, Elem, Export, FuncType, GlobalDef, Import, Limit, TableType};

/// What a section holds.
#[derive(Drop)]
pub enum Held {
    /// A custom section, which is skipped.
    Nothing,
    Types(Items<FuncType>),
    Imports(Items<Import>),
    /// The indices of the functions' types.
    Funcs(Items<u32>),
    Tables(Items<TableType>),
    Mems(Items<Limit>),
    Globals(Items<GlobalDef>),
    Exports(Items<Export>),
    Start(u32),
    Elems(Items<Elem>),
    DataCount(u32),
    Codes(Items<CodeEntry>),
    Datas(Items<Data>),
}

/// What all sections hold.
#[derive(Drop)]
pub struct Parts {
    pub types: Items<FuncType>,
    pub imports: Items<Import>,
    pub funcs: Items<u32>,
    pub tables: Items<TableType>,
    pub mems: Items<Limit>,
    pub globals: Items<GlobalDef>,
    pub exports: Items<Export>,
    pub start: Option<u32>,
    pub elems: Items<Elem>,
    pub data_count: Option<u32>,
    pub codes: Items<CodeEntry>,
    pub datas: Items<Data>,
}

/// The place of a section among the others, from 1 on, and 0 for a custom section.
pub fn place_of(held: &Held) -> u8
    ensures { result ≡ held_place held.now }
{
    match held {
        Held::Nothing => 0,
        Held::Types(_) => 1,
        Held::Imports(_) => 2,
        Held::Funcs(_) => 3,
        Held::Tables(_) => 4,
        Held::Mems(_) => 5,
        Held::Globals(_) => 6,
        Held::Exports(_) => 7,
        Held::Start(_) => 8,
        Held::Elems(_) => 9,
        Held::DataCount(_) => 10,
        Held::Codes(_) => 11,
        Held::Datas(_) => 12,
    }
}

/// What no sections hold.
pub fn nothing_held(alloc: Global) -> Parts
    ensures { result ≡ no_parts }
{
    Parts {
        types: Items::new(alloc),
        imports: Items::new(alloc),
        funcs: Items::new(alloc),
        tables: Items::new(alloc),
        mems: Items::new(alloc),
        globals: Items::new(alloc),
        exports: Items::new(alloc),
        start: None,
        elems: Items::new(alloc),
        data_count: None,
        codes: Items::new(alloc),
        datas: Items::new(alloc),
    }
}

/// What a section holds takes its place.
pub fn with_held(parts: Parts, held: Held) -> Parts
    ensures { result ≡ hold parts held }
{
    match held {
        Held::Nothing => parts,
        Held::Types(types) => Parts { types, ..parts },
        Held::Imports(imports) => Parts { imports, ..parts },
        Held::Funcs(funcs) => Parts { funcs, ..parts },
        Held::Tables(tables) => Parts { tables, ..parts },
        Held::Mems(mems) => Parts { mems, ..parts },
        Held::Globals(globals) => Parts { globals, ..parts },
        Held::Exports(exports) => Parts { exports, ..parts },
        Held::Start(func) => Parts {
            start: Some(func),
            ..parts
        },
        Held::Elems(elems) => Parts { elems, ..parts },
        Held::DataCount(count) => Parts {
            data_count: Some(count),
            ..parts
        },
        Held::Codes(codes) => Parts { codes, ..parts },
        Held::Datas(datas) => Parts { datas, ..parts },
    }
}
