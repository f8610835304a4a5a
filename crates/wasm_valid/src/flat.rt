//! Instructions that hold no blocks.

ghost use Rattle.std.specs.Prelude.{◌≡◌, ◌∷◌, [], false, replicate, reverse, slice_get, slice_index_or, length, is_some, ◌==◌, IfOk};
ghost use Rattle.std.specs.Option.{option_copied};
ghost use Rattle.wasm_valid.specs.Spaces.{then_, when, func_type, tables_of};
ghost use Rattle.wasm_valid.specs.Operands.{take_one, take_any, take_all, exchange, leaves, put, select_of, is_number, common};
ghost use Rattle.wasm_valid.specs.Piles.{Becomes};
ghost use Rattle.wasm_valid.specs.Signatures.{types_in};
ghost use Rattle.wasm_valid.specs.Typing.{branches, branches_if, branches_table, all_fit, after_select, after_flat, calls, calls_indirect, drops, selects, tests_reference, fits_reference, holds_functions};
ghost use Rattle.wasm_valid.specs.Places.{labels_at, context_at};
ghost use Rattle.wasm_valid.specs.Views.{IsSpaces};

use crate::locals::Locals;
use crate::opens::{MOST_LABELS, Opens};
use crate::operands::{OperandList, type_fits};
use crate::signature::{simple_signature, table_type};
use crate::spaces::{Spaces, set_flag};
use crate::types::{Types, types_of};
use std::alloc::AllocError;
use wasm_syntax::{FuncType, Instr, Module, Sort, TableType, ValType};

fn branch(operands: &mut OperandList, label: Option<&[ValType]>) -> bool
    ensures own { Becomes (branches (option_copied label.entry) operands.old.own) result operands.new.own }
    ensures under { operands.new.under ≡ operands.old.under }
{
    match label {
        Some(types) => operands.leave(types),
        None => false,
    }
}

fn branch_if<'a>(
    operands: &mut OperandList<'a>,
    label: Option<&'a [ValType]>,
) -> Result<bool, AllocError>
    ensures own { IfOk result (λ fine. Becomes (branches_if (option_copied label.entry) operands.old.own) fine operands.new.own) }
    ensures under { operands.new.under ≡ operands.old.under }
{
    match label {
        Some(types) => {
            if !operands.pop_type(ValType::I32) {
                return Ok(false);
            }
            operands.exchange_types(types, types)
        }
        None => Ok(false),
    }
}

fn fits_label(operands: &OperandList, label: Option<&[ValType]>, count: usize) -> bool
    ensures { result ≡ is_some (then_ (option_copied label.entry) (λ types. when (length types == count) (take_all (reverse types) operands.now.own))) }
{
    match label {
        Some(types) => types.len() == count && operands.has_types(types),
        None => false,
    }
}

fn none_seen() -> [bool; MOST_LABELS]
    ensures { result ≡ replicate 257 false }
{
    [false; MOST_LABELS]
}

fn is_seen(seen: &[bool], index: u32) -> bool
    ensures { result ≡ slice_index_or seen.now index false }
{
    match seen.get(index as usize) {
        Some(flag) => *flag,
        None => false,
    }
}

/// Whether each of these labels fits. None is compared twice, since a table may have many labels and a label many types.
fn fits_labels(
    operands: &OperandList,
    opens: &Opens,
    module: &Module,
    count: usize,
    labels: &[u32],
) -> bool
    ensures { result ≡ all_fit (labels_at «module».now opens.now) count labels.now operands.now.own }
{
    let mut seen = none_seen();
    for index in labels {
        if !is_seen(&seen, *index) {
            if !fits_label(operands, opens.label(module, *index), count) {
                return false;
            }
            set_flag(&mut seen, *index);
        }
    }
    true
}

fn branch_table(
    operands: &mut OperandList,
    opens: &Opens,
    module: &Module,
    labels: &[u32],
    default: u32,
) -> bool
    ensures own { Becomes (branches_table (labels_at «module».now opens.now) labels.now default operands.old.own) result operands.new.own }
    ensures under { operands.new.under ≡ operands.old.under }
{
    match opens.label(module, default) {
        Some(types) => {
            operands.pop_type(ValType::I32)
                && fits_labels(operands, opens, module, types.len(), labels)
                && operands.leave(types)
        }
        None => false,
    }
}

fn call<'a>(operands: &mut OperandList<'a>, ty: Option<&'a FuncType>) -> Result<bool, AllocError>
    ensures own { IfOk result (λ fine. Becomes (then_ (option_copied ty.entry) (λ g. calls g operands.old.own)) fine operands.new.own) }
    ensures under { operands.new.under ≡ operands.old.under }
{
    match ty {
        Some(ty) => operands.exchange_types(ty.params.as_slice(), ty.results.as_slice()),
        None => Ok(false),
    }
}

/// The type of a function.
pub fn type_of_func<'a>(module: &'a Module, spaces: &Spaces, index: u32) -> Option<&'a FuncType>
    requires { IsSpaces «module».now spaces.now }
    ensures { option_copied result ≡ func_type «module».now index }
{
    match spaces.funcs.get(index as usize) {
        Some(ty) => module.types.get(*ty as usize),
        None => None,
    }
}

fn is_of_functions(table: Option<TableType>) -> bool
    ensures { result ≡ holds_functions table }
{
    match table {
        Some(table) => table.elem.is_same(ValType::FuncRef),
        None => false,
    }
}

fn call_indirect<'a>(
    operands: &mut OperandList<'a>,
    table: Option<TableType>,
    ty: Option<&'a FuncType>,
) -> Result<bool, AllocError>
    ensures own { IfOk result (λ fine. Becomes (calls_indirect table (option_copied ty.entry) operands.old.own) fine operands.new.own) }
    ensures under { operands.new.under ≡ operands.old.under }
{
    if !is_of_functions(table) {
        return Ok(false);
    }
    match ty {
        Some(ty) => {
            if !operands.pop_type(ValType::I32) {
                return Ok(false);
            }
            operands.exchange_types(ty.params.as_slice(), ty.results.as_slice())
        }
        None => Ok(false),
    }
}

fn drop_one(operands: &mut OperandList) -> bool
    ensures own { Becomes (drops operands.old.own) result operands.new.own }
    ensures under { operands.new.under ≡ operands.old.under }
{
    operands.pop().is_some()
}

fn is_number_operand(operand: Option<ValType>) -> bool
    ensures { result ≡ is_number operand }
{
    match operand {
        Some(ty) => !ty.is_reference(),
        None => true,
    }
}

/// What a `select` without type puts in the place of two operands.
fn selected(first: Option<ValType>, second: Option<ValType>) -> Option<Option<ValType>>
    ensures { result ≡ select_of first second }
{
    if !is_number_operand(first) || !is_number_operand(second) {
        return None;
    }
    match first {
        Some(ty) => {
            if type_fits(ty, second) {
                Some(first)
            } else {
                None
            }
        }
        None => Some(second),
    }
}

fn select(operands: &mut OperandList) -> Result<bool, AllocError>
    ensures own { IfOk result (λ fine. Becomes (selects operands.old.own) fine operands.new.own) }
    ensures under { operands.new.under ≡ operands.old.under }
{
    if !operands.pop_type(ValType::I32) {
        return Ok(false);
    }
    let Some(second) = operands.pop() else {
        return Ok(false);
    };
    let Some(first) = operands.pop() else {
        return Ok(false);
    };
    let Some(result_type) = selected(first, second) else {
        return Ok(false);
    };
    operands.push(result_type)?;
    Ok(true)
}

fn select_typed(operands: &mut OperandList, types: &[ValType]) -> Result<bool, AllocError>
    ensures own { IfOk result (λ fine. Becomes (after_select types.now operands.old.own) fine operands.new.own) }
    ensures under { operands.new.under ≡ operands.old.under }
{
    match types {
        [ty] => {
            if !operands.pop_type(ValType::I32)
                || !operands.pop_type(*ty)
                || !operands.pop_type(*ty)
            {
                return Ok(false);
            }
            operands.push(Some(*ty))?;
            Ok(true)
        }
        _ => Ok(false),
    }
}

fn test_reference(operands: &mut OperandList) -> Result<bool, AllocError>
    ensures own { IfOk result (λ fine. Becomes (tests_reference operands.old.own) fine operands.new.own) }
    ensures under { operands.new.under ≡ operands.old.under }
{
    let Some(operand) = operands.pop() else {
        return Ok(false);
    };
    if !is_reference_operand(operand) {
        return Ok(false);
    }
    operands.push(Some(ValType::I32))?;
    Ok(true)
}

fn is_reference_operand(operand: Option<ValType>) -> bool
    ensures { result ≡ fits_reference operand }
{
    match operand {
        Some(ty) => ty.is_reference(),
        None => true,
    }
}

/// Passes an instruction of this sort, which holds no blocks: changes the operands as its type says, or tells that it isn't typed.
pub fn pass_flat<'a>(
    operands: &mut OperandList<'a>,
    opens: &Opens,
    module: &'a Module,
    spaces: &Spaces,
    locals: &Locals,
    results: Types,
    instr: &Instr,
    sort: Sort,
) -> Result<bool, AllocError>
    requires { IsSpaces «module».now spaces.now }
    ensures own { IfOk result (λ fine. Becomes (after_flat «module».now (context_at «module».now locals.now results opens.now) instr.now sort operands.old.own) fine operands.new.own) }
    ensures under { operands.new.under ≡ operands.old.under }
{
    match sort {
        Sort::Simple(simple) => match simple_signature(module, spaces, locals, simple) {
            Some(signature) => operands.apply(signature),
            None => Ok(false),
        },
        Sort::Nested(_) => Ok(false),
        Sort::Unreachable => {
            operands.abandon();
            Ok(true)
        }
        Sort::Br(index) => Ok(branch(operands, opens.label(module, index))),
        Sort::BrIf(index) => branch_if(operands, opens.label(module, index)),
        Sort::BrTable(default) => Ok(branch_table(
            operands,
            opens,
            module,
            instr.labels(),
            default,
        )),
        Sort::Return => Ok(operands.leave(types_of(module, results))),
        Sort::Call(index) => call(operands, type_of_func(module, spaces, index)),
        Sort::CallIndirect { ty, table } => call_indirect(
            operands,
            table_type(module, spaces, table),
            module.types.get(ty as usize),
        ),
        Sort::Drop => Ok(drop_one(operands)),
        Sort::Select => select(operands),
        Sort::SelectTyped => select_typed(operands, instr.types()),
        Sort::RefIsNull => test_reference(operands),
    }
}
