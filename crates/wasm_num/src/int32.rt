//! The operations at 32 bits. The public calls of the crate hand the numbers here without their width.

ghost use Rattle.std.specs.Prelude.{◌≡◌, ◌≤◌};
ghost use Rattle.wasm_num.specs.Integers.{idiv_s, idiv_u, irem_s, irem_u, ishr_s, iextend_s};
ghost use Rattle.wasm_num.specs.Integers.{integer_binary, integer_unary, integer_compare};
ghost use Rattle.wasm_syntax.specs.NumberTypes.{least_width_of};

use wasm_syntax::{BinOp, CmpOp, Trap, UnOp};

/// A binary operation by its name.
#[tactic(auto, unfolding(crate::specs::Integers::integer_binary))]
pub fn binary(op: BinOp, a: u32, b: u32) -> Result<u32, Trap>
    ensures { result ≡ integer_binary op 32 a b }
{
    match op {
        BinOp::Add => Ok(a.wrapping_add(b)),
        BinOp::Sub => Ok(a.wrapping_sub(b)),
        BinOp::Mul => Ok(a.wrapping_mul(b)),
        BinOp::DivS => div_s(a, b),
        BinOp::DivU => div_u(a, b),
        BinOp::RemS => rem_s(a, b),
        BinOp::RemU => rem_u(a, b),
        BinOp::And => Ok(a & b),
        BinOp::Or => Ok(a | b),
        BinOp::Xor => Ok(a ^ b),
        BinOp::Shl => Ok(a.wrapping_shl(b)),
        BinOp::ShrS => Ok(shr_s(a, b)),
        BinOp::ShrU => Ok(a.wrapping_shr(b)),
        BinOp::Rotl => Ok(a.rotate_left(b)),
        BinOp::Rotr => Ok(a.rotate_right(b)),
    }
}

/// A unary operation by its name. No number of 32 bits extends from 32 bits.
#[tactic(auto, unfolding(crate::specs::Integers::integer_unary))]
pub fn unary(op: UnOp, a: u32) -> u32
    requires { least_width_of op ≤ 32 }
    ensures { result ≡ integer_unary op 32 a }
{
    match op {
        UnOp::Clz => a.leading_zeros(),
        UnOp::Ctz => a.trailing_zeros(),
        UnOp::Popcnt => a.count_ones(),
        UnOp::Extend8S => extend_8(a),
        UnOp::Extend16S => extend_16(a),
        UnOp::Extend32S => unreachable!(),
    }
}

/// A comparison by its name.
#[tactic(auto, unfolding(crate::specs::Integers::integer_compare))]
pub fn compare(op: CmpOp, a: u32, b: u32) -> bool
    ensures { result ≡ integer_compare op 32 a b }
{
    match op {
        CmpOp::Eq => a == b,
        CmpOp::Ne => a != b,
        CmpOp::LtS => a.cast_signed() < b.cast_signed(),
        CmpOp::LtU => a < b,
        CmpOp::GtS => a.cast_signed() > b.cast_signed(),
        CmpOp::GtU => a > b,
        CmpOp::LeS => a.cast_signed() <= b.cast_signed(),
        CmpOp::LeU => a <= b,
        CmpOp::GeS => a.cast_signed() >= b.cast_signed(),
        CmpOp::GeU => a >= b,
    }
}

fn div_s(a: u32, b: u32) -> Result<u32, Trap>
    ensures { result ≡ idiv_s 32 a b }
{
    if b == 0 {
        return Err(Trap::DivideByZero);
    }
    if a == i32::MIN.cast_unsigned() && b == u32::MAX {
        return Err(Trap::Overflow);
    }
    Ok((a.cast_signed() / b.cast_signed()).cast_unsigned())
}

fn div_u(a: u32, b: u32) -> Result<u32, Trap>
    ensures { result ≡ idiv_u 32 a b }
{
    a.checked_div(b).ok_or(Trap::DivideByZero)
}

fn rem_s(a: u32, b: u32) -> Result<u32, Trap>
    ensures { result ≡ irem_s 32 a b }
{
    if b == 0 {
        return Err(Trap::DivideByZero);
    }
    Ok(
        a.cast_signed()
            .wrapping_rem(b.cast_signed())
            .cast_unsigned(),
    )
}

fn rem_u(a: u32, b: u32) -> Result<u32, Trap>
    ensures { result ≡ irem_u 32 a b }
{
    a.checked_rem(b).ok_or(Trap::DivideByZero)
}

fn shr_s(a: u32, b: u32) -> u32
    ensures { result ≡ ishr_s 32 a b }
{
    a.cast_signed().wrapping_shr(b).cast_unsigned()
}

fn extend_8(a: u32) -> u32
    ensures { result ≡ iextend_s 8 32 a }
{
    i32::from(((a & 0xff) as u8).cast_signed()).cast_unsigned()
}

fn extend_16(a: u32) -> u32
    ensures { result ≡ iextend_s 16 32 a }
{
    i32::from(((a & 0xffff) as u16).cast_signed()).cast_unsigned()
}
