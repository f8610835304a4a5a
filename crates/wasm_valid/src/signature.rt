//! The types of instructions (WebAssembly Core 2.0, sections 3.3.1 to 3.3.7).

ghost use Rattle.std.specs.Prelude.{◌≡◌, ◌&&◌, option_map, option_to_list, [], nat_le, nat_lt, length, slice_get, is_some};
ghost use Rattle.wasm_syntax.specs.NumberTypes.{type_of_number, source_of, target_of, natural_alignment};
ghost use Rattle.wasm_valid.specs.Spaces.{when, has_memory, func_type, is_declared, tables_of, globals_of};
ghost use Rattle.wasm_valid.specs.Typing.{goes, signature};
ghost use Rattle.wasm_valid.specs.Signatures.{takes_of, signature_of};
ghost use Rattle.wasm_valid.specs.Views.{IsSpaces};

use crate::locals::Locals;
use crate::spaces::Spaces;
use wasm_syntax::{
    ConvOp, GlobalType, MemArg, Module, Num, NumType, Simple, TableType, ValType, Width,
};

/// The types of the operands that an instruction takes, the topmost first.
#[derive(Clone, Copy, PartialEq, Eq, Debug)]
pub enum Takes {
    Nothing,
    One(ValType),
    Two(ValType, ValType),
    Three(ValType, ValType, ValType),
}

/// The type of an instruction that has one.
#[derive(Clone, Copy, PartialEq, Eq, Debug)]
pub struct Signature {
    pub takes: Takes,
    pub gives: Option<ValType>,
}

/// Three i32, as the bulk instructions take them.
const BULK: Takes = Takes::Three(ValType::I32, ValType::I32, ValType::I32);

fn typed(takes: Takes, gives: Option<ValType>) -> Option<Signature>
    ensures { option_map signature_of result ≡ goes (takes_of takes) (option_to_list gives) }
{
    Some(Signature { takes, gives })
}

/// A type that an instruction has only where a test passes.
fn typed_where(passes: bool, takes: Takes, gives: Option<ValType>) -> Option<Signature>
    ensures { option_map signature_of result ≡ when passes (goes (takes_of takes) (option_to_list gives)) }
{
    if passes { typed(takes, gives) } else { None }
}

fn is_there(module: &Module, spaces: &Spaces) -> bool
    requires { IsSpaces «module».now spaces.now }
    ensures { result ≡ has_memory «module».now }
{
    spaces.mems.len() > 0
}

fn number_type(number: Num) -> NumType
    ensures { result ≡ type_of_number number }
{
    match number {
        Num::I32(_) => NumType::I32,
        Num::I64(_) => NumType::I64,
    }
}

fn source(op: ConvOp) -> NumType
    ensures { result ≡ source_of op }
{
    match op {
        ConvOp::Wrap => NumType::I64,
        ConvOp::ExtendS | ConvOp::ExtendU => NumType::I32,
    }
}

fn target(op: ConvOp) -> NumType
    ensures { result ≡ target_of op }
{
    match op {
        ConvOp::Wrap => NumType::I32,
        ConvOp::ExtendS | ConvOp::ExtendU => NumType::I64,
    }
}

/// The alignment of a width, by its exponent of 2 in bytes.
fn alignment(width: Width) -> u32
    ensures { result ≡ natural_alignment width }
{
    match width {
        Width::Bits8 => 0,
        Width::Bits16 => 1,
        Width::Bits32 => 2,
        Width::Bits64 => 3,
    }
}

fn is_aligned(module: &Module, spaces: &Spaces, width: Width, at: MemArg) -> bool
    requires { IsSpaces «module».now spaces.now }
    ensures { result ≡ (has_memory «module».now && nat_le at.align (natural_alignment width)) }
{
    is_there(module, spaces) && at.align <= alignment(width)
}

fn is_data(module: &Module, index: u32) -> bool
    ensures { result ≡ nat_lt index (length «module».now.datas) }
{
    (index as usize) < module.datas.len()
}

fn is_source(module: &Module, spaces: &Spaces, index: u32) -> bool
    requires { IsSpaces «module».now spaces.now }
    ensures { result ≡ (has_memory «module».now && nat_lt index (length «module».now.datas)) }
{
    is_there(module, spaces) && is_data(module, index)
}

fn is_segment(module: &Module, index: u32) -> bool
    ensures { result ≡ nat_lt index (length «module».now.elems) }
{
    (index as usize) < module.elems.len()
}

fn segment_type(module: &Module, index: u32) -> Option<ValType>
    ensures { result ≡ option_map (λ segment. segment.ty) (slice_get «module».now.elems index) }
{
    match module.elems.get(index as usize) {
        Some(segment) => Some(segment.ty),
        None => None,
    }
}

fn global_type(module: &Module, spaces: &Spaces, index: u32) -> Option<GlobalType>
    requires { IsSpaces «module».now spaces.now }
    ensures { result ≡ slice_get (globals_of «module».now) index }
{
    spaces.globals.get(index as usize).copied()
}

/// The type of a table.
pub fn table_type(module: &Module, spaces: &Spaces, index: u32) -> Option<TableType>
    requires { IsSpaces «module».now spaces.now }
    ensures { result ≡ slice_get (tables_of «module».now) index }
{
    spaces.tables.get(index as usize).copied()
}

fn may_refer(module: &Module, spaces: &Spaces, index: u32) -> bool
    requires { IsSpaces «module».now spaces.now }
    ensures { result ≡ (is_some (func_type «module».now index) && is_declared «module».now index) }
{
    match spaces.funcs.get(index as usize) {
        Some(ty) => (*ty as usize) < module.types.len() && spaces.declared[index as usize],
        None => false,
    }
}

/// The type of a simple instruction, or none where a rule on its immediates fails.
pub fn simple_signature(
    module: &Module,
    spaces: &Spaces,
    locals: &Locals,
    simple: Simple,
) -> Option<Signature>
    requires { IsSpaces «module».now spaces.now }
    ensures { option_map signature_of result ≡ signature «module».now locals.now simple }
{
    match simple {
        Simple::Nop => typed(Takes::Nothing, None),
        Simple::Const(number) => typed(Takes::Nothing, Some(number_type(number).value_type())),
        Simple::Unary(ty, _) => typed(Takes::One(ty.value_type()), Some(ty.value_type())),
        Simple::Binary(ty, _) => typed(
            Takes::Two(ty.value_type(), ty.value_type()),
            Some(ty.value_type()),
        ),
        Simple::Test(ty) => typed(Takes::One(ty.value_type()), Some(ValType::I32)),
        Simple::Compare(ty, _) => typed(
            Takes::Two(ty.value_type(), ty.value_type()),
            Some(ValType::I32),
        ),
        Simple::Convert(op) => typed(
            Takes::One(source(op).value_type()),
            Some(target(op).value_type()),
        ),
        Simple::Load {
            ty,
            width,
            extension: _,
            at,
        } => typed_where(
            is_aligned(module, spaces, width, at),
            Takes::One(ValType::I32),
            Some(ty.value_type()),
        ),
        Simple::Store { ty, width, at } => typed_where(
            is_aligned(module, spaces, width, at),
            Takes::Two(ty.value_type(), ValType::I32),
            None,
        ),
        Simple::MemorySize => typed_where(
            is_there(module, spaces),
            Takes::Nothing,
            Some(ValType::I32),
        ),
        Simple::MemoryGrow => typed_where(
            is_there(module, spaces),
            Takes::One(ValType::I32),
            Some(ValType::I32),
        ),
        Simple::MemoryInit(index) => typed_where(is_source(module, spaces, index), BULK, None),
        Simple::DataDrop(index) => typed_where(is_data(module, index), Takes::Nothing, None),
        Simple::MemoryCopy => typed_where(is_there(module, spaces), BULK, None),
        Simple::MemoryFill => typed_where(is_there(module, spaces), BULK, None),
        Simple::LocalGet(index) => match locals.get(index) {
            Some(ty) => typed(Takes::Nothing, Some(ty)),
            None => None,
        },
        Simple::LocalSet(index) => match locals.get(index) {
            Some(ty) => typed(Takes::One(ty), None),
            None => None,
        },
        Simple::LocalTee(index) => match locals.get(index) {
            Some(ty) => typed(Takes::One(ty), Some(ty)),
            None => None,
        },
        Simple::GlobalGet(index) => match global_type(module, spaces, index) {
            Some(global) => typed(Takes::Nothing, Some(global.val)),
            None => None,
        },
        Simple::GlobalSet(index) => match global_type(module, spaces, index) {
            Some(global) => typed_where(global.mutable, Takes::One(global.val), None),
            None => None,
        },
        Simple::TableGet(index) => match table_type(module, spaces, index) {
            Some(table) => typed(Takes::One(ValType::I32), Some(table.elem)),
            None => None,
        },
        Simple::TableSet(index) => match table_type(module, spaces, index) {
            Some(table) => typed(Takes::Two(table.elem, ValType::I32), None),
            None => None,
        },
        Simple::TableInit { elem, table } => init_signature(module, spaces, elem, table),
        Simple::ElemDrop(index) => typed_where(is_segment(module, index), Takes::Nothing, None),
        Simple::TableCopy { to, from } => copy_signature(module, spaces, to, from),
        Simple::TableGrow(index) => match table_type(module, spaces, index) {
            Some(table) => typed(Takes::Two(ValType::I32, table.elem), Some(ValType::I32)),
            None => None,
        },
        Simple::TableSize(index) => match table_type(module, spaces, index) {
            Some(_) => typed(Takes::Nothing, Some(ValType::I32)),
            None => None,
        },
        Simple::TableFill(index) => match table_type(module, spaces, index) {
            Some(table) => typed(Takes::Three(ValType::I32, table.elem, ValType::I32), None),
            None => None,
        },
        Simple::RefNull(ty) => typed_where(ty.is_reference(), Takes::Nothing, Some(ty)),
        Simple::RefFunc(index) => typed_where(
            may_refer(module, spaces, index),
            Takes::Nothing,
            Some(ValType::FuncRef),
        ),
    }
}

fn init_signature(module: &Module, spaces: &Spaces, elem: u32, table: u32) -> Option<Signature>
    requires { IsSpaces «module».now spaces.now }
    ensures { option_map signature_of result ≡ signature «module».now [] (Simple.TableInit elem table) }
{
    match segment_type(module, elem) {
        Some(segment) => match table_type(module, spaces, table) {
            Some(table) => typed_where(segment.is_same(table.elem), BULK, None),
            None => None,
        },
        None => None,
    }
}

fn copy_signature(module: &Module, spaces: &Spaces, to: u32, from: u32) -> Option<Signature>
    requires { IsSpaces «module».now spaces.now }
    ensures { option_map signature_of result ≡ signature «module».now [] (Simple.TableCopy to from) }
{
    match table_type(module, spaces, to) {
        Some(target) => match table_type(module, spaces, from) {
            Some(source) => typed_where(target.elem.is_same(source.elem), BULK, None),
            None => None,
        },
        None => None,
    }
}
