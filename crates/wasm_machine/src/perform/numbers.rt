//! Numeric instructions (WebAssembly Core 2.0, section 4.4.1).

ghost use Rattle.std.specs.Prelude.{◌≡◌, ◌<◌, ◌≤◌, ◌∷◌, [], OnOk, IfErr};
ghost use Rattle.wasm_syntax.specs.NumberTypes.{value_type, type_of_number, source_of, least_width_of, bits_of};
ghost use Rattle.wasm_num.specs.Integers.{of_test};
ghost use Rattle.wasm_machine.specs.Performing.{number_value};
ghost use Rattle.wasm_machine.specs.View.{values_of, with_values, operands_of};
ghost use Rattle.wasm_machine.specs.Classes.{IsTops, Goes, GoesTo};

use crate::frame::WasmFrame;
use wasm_num::{binary, compare, convert, is_zero, unary};
use wasm_syntax::{BinOp, CmpOp, ConvOp, Num, NumType, Simple, Trap, UnOp, Value};

/// A number as a value.
#[inline]
pub(crate) fn value_of(number: Num) -> Value
    ensures { result ≡ number_value number }
{
    match number {
        Num::I32(number) => Value::I32(number),
        Num::I64(number) => Value::I64(number),
    }
}

#[inline]
fn truth(test: bool) -> Value
    ensures { result ≡ Value.I32 (of_test test) }
{
    Value::I32(u32::from(test))
}

/// The type of the number that a conversion takes.
#[inline]
fn source(op: ConvOp) -> NumType
    ensures { result ≡ source_of op }
{
    match op {
        ConvOp::Wrap => NumType::I64,
        ConvOp::ExtendS => NumType::I32,
        ConvOp::ExtendU => NumType::I32,
    }
}

impl WasmFrame {
    /// The topmost operand, a number of this type.
    #[inline]
    pub(crate) fn pop_num(&mut self, ty: NumType) -> Num
        requires { IsTops (value_type ty ∷ []) (values_of self.old) }
        ensures value { values_of self.old ≡ number_value result ∷ values_of self.new }
        ensures typed { type_of_number result ≡ ty }
        ensures rest { self.new ≡ with_values (values_of self.new) self.old }
    {
        let _ = ty;
        match self.pop() {
            Value::I32(number) => Num::I32(number),
            Value::I64(number) => Num::I64(number),
            _ => unreachable!(),
        }
    }

    #[inline]
    pub(crate) fn constant(&mut self, number: Num)
        requires { operands_of self.old < self.old.room }
        ensures { Goes (Simple.Const number) self.old self.new }
    {
        self.push(value_of(number));
    }

    #[inline]
    pub(crate) fn unary(&mut self, ty: NumType, op: UnOp)
        requires tops { IsTops (value_type ty ∷ []) (values_of self.old) }
        requires width { least_width_of op ≤ bits_of ty }
        requires room { operands_of self.old ≤ self.old.room }
        ensures { Goes (Simple.Unary ty op) self.old self.new }
    {
        let a = self.pop_num(ty);
        self.push(value_of(unary(op, a)));
    }

    #[inline]
    pub(crate) fn binary(&mut self, ty: NumType, op: BinOp) -> Result<(), Trap>
        requires tops { IsTops (value_type ty ∷ value_type ty ∷ []) (values_of self.old) }
        requires room { operands_of self.old ≤ self.old.room }
        ensures ok { OnOk result (Goes (Simple.Binary ty op) self.old self.new) }
        ensures trap { IfErr result (GoesTo (Simple.Binary ty op) self.old) }
    {
        let b = self.pop_num(ty);
        let a = self.pop_num(ty);
        match binary(op, a, b) {
            Ok(c) => {
                self.push(value_of(c));
                Ok(())
            }
            Err(trap) => Err(trap),
        }
    }

    #[inline]
    pub(crate) fn test(&mut self, ty: NumType)
        requires tops { IsTops (value_type ty ∷ []) (values_of self.old) }
        requires room { operands_of self.old ≤ self.old.room }
        ensures { Goes (Simple.Test ty) self.old self.new }
    {
        let a = self.pop_num(ty);
        self.push(truth(is_zero(a)));
    }

    #[inline]
    pub(crate) fn compare(&mut self, ty: NumType, op: CmpOp)
        requires tops { IsTops (value_type ty ∷ value_type ty ∷ []) (values_of self.old) }
        requires room { operands_of self.old ≤ self.old.room }
        ensures { Goes (Simple.Compare ty op) self.old self.new }
    {
        let b = self.pop_num(ty);
        let a = self.pop_num(ty);
        self.push(truth(compare(op, a, b)));
    }

    #[inline]
    pub(crate) fn convert(&mut self, op: ConvOp)
        requires tops { IsTops (value_type (source_of op) ∷ []) (values_of self.old) }
        requires room { operands_of self.old ≤ self.old.room }
        ensures { Goes (Simple.Convert op) self.old self.new }
    {
        let a = self.pop_num(source(op));
        self.push(value_of(convert(op, a)));
    }
}
