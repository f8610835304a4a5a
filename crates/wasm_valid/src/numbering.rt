//! The numbering of the blocks.

ghost use Rattle.std.specs.Prelude.{◌≡◌, ◌++◌, ◌∷◌, [], length, map, flat_map, IfOk, OnOk};
ghost use Rattle.wasm_syntax.specs.Numbering.{nested_in, outermost, offset_of, is_numbered};
ghost use Rattle.wasm_valid.specs.Numbers.{Found};

use std::alloc::{AllocError, Global};
use wasm_syntax::{BlockId, Data, Elem, Func, GlobalDef, Instr, Mode, Module};

/// Adds the blocks that stand in these instructions, in their order.
fn add_nested(pending: &mut Vec<BlockId>, code: &[Instr]) -> Result<(), AllocError>
    ensures { OnOk result (pending.new.items ≡ pending.old.items ++ flat_map nested_in code.now) }
{
    for instr in code {
        if let Some(nesting) = instr.nesting() {
            pending.push(nesting.body)?;
            if let Some(other) = nesting.other {
                pending.push(other)?;
            }
        }
    }
    Ok(())
}

/// Finds a block and those that stand in it, sought from the last one on: the last of those that are still to come has the
/// greatest number that is left, and those that stand in it come next. Answers how many blocks are left then, or none where a
/// block has another number.
fn found(
    alloc: Global,
    module: &Module,
    from: usize,
    id: BlockId,
) -> Result<Option<usize>, AllocError>
    ensures { IfOk result (Found «module».now from (id ∷ [])) }
{
    let mut pending = Vec::new(alloc);
    let mut next = id;
    let mut left = from;
    loop {
        if left == 0 {
            return Ok(None);
        }
        left -= 1;
        if next.0 as usize != left {
            return Ok(None);
        }
        add_nested(&mut pending, module.code(next))?;
        match pending.pop() {
            Some(id) => next = id,
            None => return Ok(Some(left)),
        }
    }
}

/// The same of a segment's offset.
fn found_offset(
    alloc: Global,
    module: &Module,
    from: usize,
    mode: Mode,
) -> Result<Option<usize>, AllocError>
    ensures { IfOk result (Found «module».now from (offset_of mode)) }
{
    match mode {
        Mode::Active { index: _, offset } => found(alloc, module, from, offset),
        Mode::Passive => Ok(Some(from)),
        Mode::Declared => Ok(Some(from)),
    }
}

/// Of a segment's items.
fn found_items(
    alloc: Global,
    module: &Module,
    from: usize,
    ids: &[BlockId],
) -> Result<Option<usize>, AllocError>
    ensures { IfOk result (Found «module».now from (ids.now)) }
{
    let mut left = from;
    let mut at = ids.len();
    while at > 0 {
        at -= 1;
        match found(alloc, module, left, ids[at])? {
            Some(fewer) => left = fewer,
            None => return Ok(None),
        }
    }
    Ok(Some(left))
}

/// Of a segment, whose items stand behind its offset.
fn found_elem(
    alloc: Global,
    module: &Module,
    from: usize,
    elem: &Elem,
) -> Result<Option<usize>, AllocError>
    ensures { IfOk result (Found «module».now from (offset_of elem.now.mode ++ elem.now.items)) }
{
    match found_items(alloc, module, from, elem.items.as_slice())? {
        Some(left) => found_offset(alloc, module, left, elem.mode),
        None => Ok(None),
    }
}

/// Of the globals' initial values.
fn found_globals(
    alloc: Global,
    module: &Module,
    from: usize,
    globals: &[GlobalDef],
) -> Result<Option<usize>, AllocError>
    ensures { IfOk result (Found «module».now from (map (λ g. g.init) globals.now)) }
{
    let mut left = from;
    let mut at = globals.len();
    while at > 0 {
        at -= 1;
        match found(alloc, module, left, globals[at].init)? {
            Some(fewer) => left = fewer,
            None => return Ok(None),
        }
    }
    Ok(Some(left))
}

/// Of the element segments.
fn found_elems(
    alloc: Global,
    module: &Module,
    from: usize,
    elems: &[Elem],
) -> Result<Option<usize>, AllocError>
    ensures { IfOk result (Found «module».now from (flat_map (λ segment. offset_of segment.mode ++ segment.items) elems.now)) }
{
    let mut left = from;
    let mut at = elems.len();
    while at > 0 {
        at -= 1;
        match found_elem(alloc, module, left, &elems[at])? {
            Some(fewer) => left = fewer,
            None => return Ok(None),
        }
    }
    Ok(Some(left))
}

/// Of the functions' bodies.
fn found_funcs(
    alloc: Global,
    module: &Module,
    from: usize,
    funcs: &[Func],
) -> Result<Option<usize>, AllocError>
    ensures { IfOk result (Found «module».now from (map (λ f. f.body) funcs.now)) }
{
    let mut left = from;
    let mut at = funcs.len();
    while at > 0 {
        at -= 1;
        match found(alloc, module, left, funcs[at].body)? {
            Some(fewer) => left = fewer,
            None => return Ok(None),
        }
    }
    Ok(Some(left))
}

/// Of the data segments' offsets.
fn found_datas(
    alloc: Global,
    module: &Module,
    from: usize,
    datas: &[Data],
) -> Result<Option<usize>, AllocError>
    ensures { IfOk result (Found «module».now from (flat_map (λ segment. offset_of segment.mode) datas.now)) }
{
    let mut left = from;
    let mut at = datas.len();
    while at > 0 {
        at -= 1;
        match found_offset(alloc, module, left, datas[at].mode)? {
            Some(fewer) => left = fewer,
            None => return Ok(None),
        }
    }
    Ok(Some(left))
}

/// Of all blocks that stand in no other, in the order of the binary format's sections.
fn found_all(alloc: Global, module: &Module) -> Result<Option<usize>, AllocError>
    ensures { IfOk result (Found «module».now (length «module».now.blocks) (outermost «module».now)) }
{
    let count = module.blocks.len();
    let Some(left) = found_datas(alloc, module, count, module.datas.as_slice())? else {
        return Ok(None);
    };
    let Some(left) = found_funcs(alloc, module, left, module.funcs.as_slice())? else {
        return Ok(None);
    };
    let Some(left) = found_elems(alloc, module, left, module.elems.as_slice())? else {
        return Ok(None);
    };
    found_globals(alloc, module, left, module.globals.as_slice())
}

/// Whether the blocks are numbered in the order in which they end.
pub fn has_numbering(alloc: Global, module: &Module) -> Result<bool, AllocError>
    ensures { IfOk result (λ numbered. numbered ≡ is_numbered «module».now) }
{
    match found_all(alloc, module)? {
        Some(left) => Ok(left == 0),
        None => Ok(false),
    }
}
