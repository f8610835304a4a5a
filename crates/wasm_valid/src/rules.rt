//! The module rules beside the bodies (WebAssembly Core 2.0, section 3.4).

ghost use Rattle.std.specs.Prelude.{◌≡◌, ◌&&◌, length, nat_lt, nat_le, IfOk};
ghost use Rattle.std.specs.List.{list_all};
ghost use Rattle.wasm_valid.specs.ModuleRules.{is_vector, type_exists, is_limit, is_table, is_memory, is_import, one_memory, constant_type, is_constant, is_global, is_export, names_differ, is_start, is_elem, is_elem_mode, is_data, is_type, holds, obeys_rules};
ghost use Rattle.wasm_valid.specs.Views.{IsSpaces};

use crate::flat::type_of_func;
use crate::signature::table_type;
use crate::spaces::Spaces;
use std::alloc::{AllocError, Global};
use std::collections::BTreeSet;
use wasm_syntax::{
    BlockId, Data, Elem, Export, ExportDesc, Func, GlobalDef, Import, ImportDesc, Instr, Limit,
    Mode, Module, TableType, ValType,
};

/// The pages that 32 bits of address reach.
const MOST_ADDRESSED_PAGES: u32 = 65_536;

fn is_few(funcs: &[Func]) -> bool
    ensures { result ≡ is_vector funcs.now }
{
    funcs.len() < 4_294_967_296
}

fn has_type(module: &Module, index: u32) -> bool
    ensures { result ≡ type_exists «module».now index }
{
    (index as usize) < module.types.len()
}

fn is_fine_limit(limit: Limit) -> bool
    ensures { result ≡ is_limit limit }
{
    match limit.max {
        Some(max) => limit.min <= max,
        None => true,
    }
}

fn is_fine_table(table: TableType) -> bool
    ensures { result ≡ is_table table }
{
    table.elem.is_element() && is_fine_limit(table.limit)
}

fn is_fine_memory(limit: Limit) -> bool
    ensures { result ≡ is_memory limit }
{
    is_fine_limit(limit)
        && limit.min <= MOST_ADDRESSED_PAGES
        && limit.max.unwrap_or(0) <= MOST_ADDRESSED_PAGES
}

fn is_fine_import(module: &Module, desc: ImportDesc) -> bool
    ensures { result ≡ is_import «module».now desc }
{
    match desc {
        ImportDesc::Func(index) => has_type(module, index),
        ImportDesc::Table(table) => is_fine_table(table),
        ImportDesc::Mem(limit) => is_fine_memory(limit),
        ImportDesc::Global(_) => true,
    }
}

fn are_fine_imports(module: &Module, imports: &[Import]) -> bool
    ensures { result ≡ list_all (λ import. is_import «module».now import.desc) imports.now }
{
    imports
        .iter()
        .all(|import| is_fine_import(module, import.desc))
}

fn have_types(module: &Module, funcs: &[Func]) -> bool
    ensures { result ≡ list_all (λ f. type_exists «module».now f.ty) funcs.now }
{
    funcs.iter().all(|func| has_type(module, func.ty))
}

fn are_fine_tables(tables: &[TableType]) -> bool
    ensures { result ≡ list_all is_table tables.now }
{
    tables.iter().all(|table| is_fine_table(*table))
}

fn are_fine_memories(memories: &[Limit]) -> bool
    ensures { result ≡ list_all is_memory memories.now }
{
    memories.iter().all(|memory| is_fine_memory(*memory))
}

/// The type of the value of a constant instruction.
fn constant_value(module: &Module, spaces: &Spaces, instr: &Instr) -> Option<ValType>
    requires { IsSpaces «module».now spaces.now }
    ensures { result ≡ constant_type «module».now instr.now }
{
    match instr {
        Instr::I32Const(_) => Some(ValType::I32),
        Instr::I64Const(_) => Some(ValType::I64),
        Instr::RefNull(ty) => { if ty.is_reference() { Some(*ty) } else { None } }
        Instr::RefFunc(index) => match type_of_func(module, spaces, *index) {
            Some(_) => Some(ValType::FuncRef),
            None => None,
        },
        Instr::GlobalGet(index) => match spaces.imported_globals.get(*index as usize) {
            Some(global) => {
                if global.mutable {
                    None
                } else {
                    Some(global.val)
                }
            }
            None => None,
        },
        _ => None,
    }
}

fn has_value_type(ty: ValType, value: Option<ValType>) -> bool
    ensures { result ≡ is_type ty value }
{
    match value {
        Some(found) => ty.is_same(found),
        None => false,
    }
}

/// Whether a block is a constant expression of this type.
fn is_fine_constant(module: &Module, spaces: &Spaces, ty: ValType, id: BlockId) -> bool
    requires { IsSpaces «module».now spaces.now }
    ensures { result ≡ is_constant «module».now ty id }
{
    match module.code(id) {
        [instr] => has_value_type(ty, constant_value(module, spaces, instr)),
        _ => false,
    }
}

fn are_fine_globals(module: &Module, spaces: &Spaces, globals: &[GlobalDef]) -> bool
    requires { IsSpaces «module».now spaces.now }
    ensures { result ≡ list_all (is_global «module».now) globals.now }
{
    globals.iter().all(|global| is_fine_constant(module, spaces, global.ty.val, global.init))
}

fn is_fine_export(module: &Module, spaces: &Spaces, desc: ExportDesc) -> bool
    requires { IsSpaces «module».now spaces.now }
    ensures { result ≡ is_export «module».now desc }
{
    match desc {
        ExportDesc::Func(index) => (index as usize) < spaces.funcs.len(),
        ExportDesc::Table(index) => (index as usize) < spaces.tables.len(),
        ExportDesc::Mem(index) => (index as usize) < spaces.mems.len(),
        ExportDesc::Global(index) => (index as usize) < spaces.globals.len(),
    }
}

fn are_fine_exports(module: &Module, spaces: &Spaces, exports: &[Export]) -> bool
    requires { IsSpaces «module».now spaces.now }
    ensures { result ≡ list_all (λ export. is_export «module».now export.desc) exports.now }
{
    exports
        .iter()
        .all(|export| is_fine_export(module, spaces, export.desc))
}

/// Whether no two exports have one name. The names are kept in order, so that none that are chosen for it take longer.
fn are_apart(alloc: Global, exports: &[Export]) -> Result<bool, AllocError>
    ensures { IfOk result (λ apart. apart ≡ names_differ exports.now) }
{
    let mut names: BTreeSet<&str> = BTreeSet::new(alloc);
    for export in exports {
        let is_new = names.insert(export.name.as_str())?;
        if !is_new {
            return Ok(false);
        }
    }
    Ok(true)
}

fn is_fine_start(module: &Module, spaces: &Spaces, start: Option<u32>) -> bool
    requires { IsSpaces «module».now spaces.now }
    ensures { result ≡ is_start «module».now start }
{
    match start {
        Some(index) => match type_of_func(module, spaces, index) {
            Some(ty) => ty.params.len() == 0 && ty.results.len() == 0,
            None => false,
        },
        None => true,
    }
}

fn holds_type(ty: ValType, table: Option<TableType>) -> bool
    ensures { result ≡ holds ty table }
{
    match table {
        Some(table) => ty.is_same(table.elem),
        None => false,
    }
}

fn is_fine_mode(module: &Module, spaces: &Spaces, ty: ValType, mode: Mode) -> bool
    requires { IsSpaces «module».now spaces.now }
    ensures { result ≡ is_elem_mode «module».now ty mode }
{
    match mode {
        Mode::Active { index, offset } => {
            holds_type(ty, table_type(module, spaces, index))
                && is_fine_constant(module, spaces, ValType::I32, offset)
        }
        Mode::Passive => true,
        Mode::Declared => true,
    }
}

fn are_fine_items(module: &Module, spaces: &Spaces, ty: ValType, items: &[BlockId]) -> bool
    requires { IsSpaces «module».now spaces.now }
    ensures { result ≡ list_all (is_constant «module».now ty) items.now }
{
    items
        .iter()
        .all(|item| is_fine_constant(module, spaces, ty, *item))
}

fn is_fine_elem(module: &Module, spaces: &Spaces, elem: &Elem) -> bool
    requires { IsSpaces «module».now spaces.now }
    ensures { result ≡ is_elem «module».now elem.now }
{
    elem.ty.is_element()
        && are_fine_items(module, spaces, elem.ty, elem.items.as_slice())
        && is_fine_mode(module, spaces, elem.ty, elem.mode)
}

fn are_fine_elems(module: &Module, spaces: &Spaces, elems: &[Elem]) -> bool
    requires { IsSpaces «module».now spaces.now }
    ensures { result ≡ list_all (is_elem «module».now) elems.now }
{
    elems.iter().all(|elem| is_fine_elem(module, spaces, elem))
}

fn is_fine_data(module: &Module, spaces: &Spaces, mode: Mode) -> bool
    requires { IsSpaces «module».now spaces.now }
    ensures { result ≡ is_data «module».now mode }
{
    match mode {
        Mode::Active { index, offset } => {
            (index as usize) < spaces.mems.len()
                && is_fine_constant(module, spaces, ValType::I32, offset)
        }
        Mode::Passive => true,
        Mode::Declared => false,
    }
}

fn are_fine_datas(module: &Module, spaces: &Spaces, datas: &[Data]) -> bool
    requires { IsSpaces «module».now spaces.now }
    ensures { result ≡ list_all (λ segment. is_data «module».now segment.mode) datas.now }
{
    datas
        .iter()
        .all(|data| is_fine_data(module, spaces, data.mode))
}

/// Whether a module obeys the rules that stand outside the bodies, but for the numbering of the blocks.
pub fn keeps_rules(alloc: Global, module: &Module, spaces: &Spaces) -> Result<bool, AllocError>
    requires { IsSpaces «module».now spaces.now }
    ensures { IfOk result (λ kept. kept ≡ obeys_rules «module».now) }
{
    if !is_few(module.funcs.as_slice()) {
        return Ok(false);
    }
    if !are_fine_imports(module, module.imports.as_slice()) {
        return Ok(false);
    }
    if !have_types(module, module.funcs.as_slice()) {
        return Ok(false);
    }
    if !are_fine_tables(module.tables.as_slice()) {
        return Ok(false);
    }
    if !are_fine_memories(module.mems.as_slice()) {
        return Ok(false);
    }
    if spaces.mems.len() > 1 {
        return Ok(false);
    }
    if !are_fine_globals(module, spaces, module.globals.as_slice()) {
        return Ok(false);
    }
    if !are_fine_exports(module, spaces, module.exports.as_slice()) {
        return Ok(false);
    }
    if !are_apart(alloc, module.exports.as_slice())? {
        return Ok(false);
    }
    if !is_fine_start(module, spaces, module.start) {
        return Ok(false);
    }
    if !are_fine_elems(module, spaces, module.elems.as_slice()) {
        return Ok(false);
    }
    if !are_fine_datas(module, spaces, module.datas.as_slice()) {
        return Ok(false);
    }
    Ok(true)
}
