//! The integer operations of WebAssembly Core 2.0, sections 4.3.2 and 4.3.4.
//!
//! A [`Num`] carries its width, and one call takes each kind of operation by its name. The operands have
//! the widths that validation gives them: that is each call's condition, and none is tested when it runs.
//! No call takes memory.
#![tactic(auto)]

ghost use Rattle.std.specs.Prelude.{◌≡◌, ◌≤◌, ◌-◌, ◌^◌, ◌↔◌, ◌⊎◌, IsTrue, IfOk, IfErr, pos, negsuc, neg_ℤ};
ghost use Rattle.wasm_num.specs.Integers.{binary_of, unary_of, compare_of, convert_of};
ghost use Rattle.wasm_num.specs.Integers.{width_of, number_of, signed_of, is_division};
ghost use Rattle.wasm_num.specs.Integers.{source_width_of, target_width_of, test_of};
ghost use Rattle.wasm_syntax.specs.NumberTypes.{least_width_of};

use wasm_syntax::Trap;
pub use wasm_syntax::{BinOp, CmpOp, ConvOp, Num, UnOp};

mod int32;
mod int64;
pub mod laws;

/// The result of a binary operation, or the trap that it ends in.
pub fn binary(op: BinOp, a: Num, b: Num) -> Result<Num, Trap>
    requires { width_of a ≡ width_of b }
    ensures value { result ≡ binary_of op a b }
    ensures width { IfOk result (λ c. width_of c ≡ width_of a) }

    ensures divide_by_zero { (result ≡ Err Trap.DivideByZero)
        ↔ (IsTrue (is_division op) × (number_of b ≡ 0)) }
    // the least value by -1
    ensures overflow { (result ≡ Err Trap.Overflow)
        ↔ ((op ≡ BinOp.DivS) × (signed_of a ≡ neg_ℤ (pos (2 ^ (width_of a - 1)))) × (signed_of b ≡ negsuc 0)) }
    ensures no_other_trap { IfErr result (λ trap.
        (trap ≡ Trap.DivideByZero) ⊎ (trap ≡ Trap.Overflow)) }
{
    binary_by_width(op, a, b)
}

/// The result of a unary operation.
#[tactic(auto, unfolding(crate::specs::Integers::unary_of))]
pub fn unary(op: UnOp, a: Num) -> Num
    requires { least_width_of op ≤ width_of a }
    ensures value { result ≡ unary_of op a }
    ensures width { width_of result ≡ width_of a }
{
    match a {
        Num::I32(a) => Num::I32(int32::unary(op, a)),
        Num::I64(a) => Num::I64(int64::unary(op, a)),
    }
}

/// Whether the comparison holds.
#[tactic(auto, unfolding(crate::specs::Integers::compare_of))]
pub fn compare(op: CmpOp, a: Num, b: Num) -> bool
    requires { width_of a ≡ width_of b }
    ensures { result ≡ compare_of op a b }
{
    match (a, b) {
        (Num::I32(a), Num::I32(b)) => int32::compare(op, a, b),
        (Num::I64(a), Num::I64(b)) => int64::compare(op, a, b),
        _ => unreachable!(),
    }
}

/// Whether the number is 0 (`eqz`).
#[tactic(auto, unfolding(crate::specs::Integers::test_of))]
pub fn is_zero(a: Num) -> bool
    ensures value { result ≡ test_of a }
    ensures zero { IsTrue result ↔ (number_of a ≡ 0) }
{
    match a {
        Num::I32(a) => a == 0,
        Num::I64(a) => a == 0,
    }
}

/// The number at the other width.
#[tactic(auto, unfolding(crate::specs::Integers::convert_of))]
pub fn convert(op: ConvOp, a: Num) -> Num
    requires { width_of a ≡ source_width_of op }
    ensures value { result ≡ convert_of op a }
    ensures width { width_of result ≡ target_width_of op }
{
    match (op, a) {
        (ConvOp::Wrap, Num::I64(a)) => Num::I32((a & 0xffff_ffff) as u32),
        (ConvOp::ExtendS, Num::I32(a)) => Num::I64(int64::extend_s(a)),
        (ConvOp::ExtendU, Num::I32(a)) => Num::I64(u64::from(a)),
        _ => unreachable!(),
    }
}

#[tactic(auto, unfolding(crate::specs::Integers::binary_of))]
fn binary_by_width(op: BinOp, a: Num, b: Num) -> Result<Num, Trap>
    requires { width_of a ≡ width_of b }
    ensures { result ≡ binary_of op a b }
{
    match (a, b) {
        (Num::I32(a), Num::I32(b)) => Ok(Num::I32(int32::binary(op, a, b)?)),
        (Num::I64(a), Num::I64(b)) => Ok(Num::I64(int64::binary(op, a, b)?)),
        _ => unreachable!(),
    }
}
