//! The index spaces of a module, made once (WebAssembly Core 2.0, section 3.1.1).

ghost use Rattle.std.specs.Prelude.{◌≡◌, ◌<◌, ◌||◌, ◌++◌, ◌∷◌, [], length, map, filter_map, slice_set, slice_get, IfOk, OnOk, IfSome, IsSome, option_map, true, false, ℕ, slice_index_or};
ghost use Rattle.std.specs.List.{list_any};
ghost use Rattle.wasm_syntax.specs.Blocks.{block_of};
ghost use Rattle.wasm_valid.specs.Spaces.{func_import, table_import, mem_import, global_import, refers_to, is_export_of, func_type, has_memory, funcs_of, tables_of, globals_of, is_declared};
ghost use Rattle.wasm_valid.specs.Views.{Marks, IsSpaces};

use std::alloc::{AllocError, Global};
use wasm_syntax::{
    BlockId, Elem, Export, ExportDesc, Func, GlobalDef, GlobalType, Import, ImportDesc, Instr,
    Limit, Module, TableType,
};

/// The index spaces of a module, where imports come first.
#[derive(Drop)]
pub struct Spaces {
    /// For each function the index of its type.
    pub funcs: Vec<u32>,
    pub tables: Vec<TableType>,
    pub imported_globals: Vec<GlobalType>,
    pub globals: Vec<GlobalType>,
    pub mems: Vec<Limit>,
    /// For each function whether a body may refer to it.
    pub declared: Vec<bool>,
}

fn imported_func(import: &Import) -> Option<u32>
    ensures { result ≡ func_import import.now.desc }
{
    match import.desc {
        ImportDesc::Func(ty) => Some(ty),
        _ => None,
    }
}

fn imported_table(import: &Import) -> Option<TableType>
    ensures { result ≡ table_import import.now.desc }
{
    match import.desc {
        ImportDesc::Table(ty) => Some(ty),
        _ => None,
    }
}

fn imported_mem(import: &Import) -> Option<Limit>
    ensures { result ≡ mem_import import.now.desc }
{
    match import.desc {
        ImportDesc::Mem(limit) => Some(limit),
        _ => None,
    }
}

fn imported_global(import: &Import) -> Option<GlobalType>
    ensures { result ≡ global_import import.now.desc }
{
    match import.desc {
        ImportDesc::Global(ty) => Some(ty),
        _ => None,
    }
}

fn imported_funcs(alloc: Global, imports: &[Import]) -> Result<Vec<u32>, AllocError>
    ensures { IfOk result (λ list. list.items ≡ filter_map (λ import. func_import import.desc) imports.now) }
{
    imports.iter().filter_map(imported_func).collect(alloc)
}

fn imported_tables(alloc: Global, imports: &[Import]) -> Result<Vec<TableType>, AllocError>
    ensures { IfOk result (λ list. list.items ≡ filter_map (λ import. table_import import.desc) imports.now) }
{
    imports.iter().filter_map(imported_table).collect(alloc)
}

fn imported_globals(alloc: Global, imports: &[Import]) -> Result<Vec<GlobalType>, AllocError>
    ensures { IfOk result (λ list. list.items ≡ filter_map (λ import. global_import import.desc) imports.now) }
{
    imports.iter().filter_map(imported_global).collect(alloc)
}

fn imported_mems(alloc: Global, imports: &[Import]) -> Result<Vec<Limit>, AllocError>
    ensures { IfOk result (λ list. list.items ≡ filter_map (λ import. mem_import import.desc) imports.now) }
{
    imports.iter().filter_map(imported_mem).collect(alloc)
}

fn add_funcs(list: &mut Vec<u32>, funcs: &[Func]) -> Result<(), AllocError>
    ensures { OnOk result (list.new.items ≡ list.old.items ++ map (λ f. f.ty) funcs.now) }
{
    for func in funcs {
        list.push(func.ty)?;
    }
    Ok(())
}

fn add_globals(list: &mut Vec<GlobalType>, globals: &[GlobalDef]) -> Result<(), AllocError>
    ensures { OnOk result (list.new.items ≡ list.old.items ++ map (λ g. g.ty) globals.now) }
{
    for global in globals {
        list.push(global.ty)?;
    }
    Ok(())
}

/// Sets the flag with this index, where there is one.
pub fn set_flag(flags: &mut [bool], index: u32)
    ensures { flags.new ≡ slice_set flags.old index true }
{
    if (index as usize) < flags.len() {
        flags[index as usize] = true;
    }
}

fn mark_exports(flags: &mut [bool], exports: &[Export])
    ensures { Marks flags.old flags.new (λ x. list_any (λ export. is_export_of x export.desc) exports.now) }
{
    for export in exports {
        if let ExportDesc::Func(index) = export.desc {
            set_flag(flags, index);
        }
    }
}

fn mark_code(flags: &mut [bool], code: &[Instr])
    ensures { Marks flags.old flags.new (λ x. list_any (refers_to x) code.now) }
{
    for instr in code {
        if let Instr::RefFunc(index) = instr {
            set_flag(flags, *index);
        }
    }
}

fn mark_globals(flags: &mut [bool], module: &Module, globals: &[GlobalDef])
    ensures { Marks flags.old flags.new (λ x. list_any (λ g. list_any (refers_to x) (block_of «module».now g.init)) globals.now) }
{
    for global in globals {
        mark_code(flags, module.code(global.init));
    }
}

fn mark_items(flags: &mut [bool], module: &Module, items: &[BlockId])
    ensures { Marks flags.old flags.new (λ x. list_any (λ item. list_any (refers_to x) (block_of «module».now item)) items.now) }
{
    for item in items {
        mark_code(flags, module.code(*item));
    }
}

fn mark_elems(flags: &mut [bool], module: &Module, elems: &[Elem])
    ensures { Marks flags.old flags.new (λ x. list_any (λ segment. list_any (λ item. list_any (refers_to x) (block_of «module».now item)) segment.items) elems.now) }
{
    for elem in elems {
        mark_items(flags, module, elem.items.as_slice());
    }
}

fn declared_funcs(alloc: Global, module: &Module, count: usize) -> Result<Vec<bool>, AllocError>
    ensures length { IfOk result (λ flags. length flags.items ≡ count) }
    ensures each { IfOk result (λ flags. (x : ℕ) → x < count → slice_index_or flags.items x false ≡ is_declared «module».now x) }
{
    let mut flags = vec![in alloc; false; count]?;
    mark_exports(&mut flags, module.exports.as_slice());
    mark_globals(&mut flags, module, module.globals.as_slice());
    mark_elems(&mut flags, module, module.elems.as_slice());
    Ok(flags)
}

/// The index spaces of a module.
pub fn index_spaces(alloc: Global, module: &Module) -> Result<Spaces, AllocError>
    ensures { IfOk result (IsSpaces «module».now) }
{
    let imports = module.imports.as_slice();
    let mut funcs = imported_funcs(alloc, imports)?;
    add_funcs(&mut funcs, module.funcs.as_slice())?;
    let mut tables = imported_tables(alloc, imports)?;
    tables.extend_from_slice(module.tables.as_slice())?;
    let imported = imported_globals(alloc, imports)?;
    let mut globals = imported_globals(alloc, imports)?;
    add_globals(&mut globals, module.globals.as_slice())?;
    let mut mems = imported_mems(alloc, imports)?;
    mems.extend_from_slice(module.mems.as_slice())?;
    let declared = declared_funcs(alloc, module, funcs.len())?;
    Ok(Spaces {
        funcs,
        tables,
        imported_globals: imported,
        globals,
        mems,
        declared,
    })
}
