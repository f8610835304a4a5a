//! The operations at 64 bits. The public calls of the crate hand the numbers here without their width.

ghost use Rattle.std.specs.Prelude.{◌≡◌, ◌%◌};
ghost use Rattle.wasm_num.specs.Integers.{idiv_s, idiv_u, irem_s, irem_u, ishl, ishr_s, ishr_u, irotl, irotr, extend_s, iextend_s};
ghost use Rattle.wasm_num.specs.Integers.{integer_binary, integer_unary, integer_compare};

use wasm_syntax::{BinOp, CmpOp, Trap, UnOp};

/// A binary operation by its name.
#[tactic(auto, unfolding(crate::specs::Integers::integer_binary))]
pub fn binary(op: BinOp, a: u64, b: u64) -> Result<u64, Trap>
    ensures { result ≡ integer_binary op 64 a b }
{
    match op {
        BinOp::Add => Ok(a.wrapping_add(b)),
        BinOp::Sub => Ok(a.wrapping_sub(b)),
        BinOp::Mul => Ok(a.wrapping_mul(b)),
        BinOp::DivS => div_s(a, b),
        BinOp::DivU => div_u(a, b),
        BinOp::RemS => rem_s(a, b),
        BinOp::RemU => rem_u(a, b),
        BinOp::And => Ok(a & b),
        BinOp::Or => Ok(a | b),
        BinOp::Xor => Ok(a ^ b),
        BinOp::Shl => Ok(shl(a, b)),
        BinOp::ShrS => Ok(shr_s(a, b)),
        BinOp::ShrU => Ok(shr_u(a, b)),
        BinOp::Rotl => Ok(rotl(a, b)),
        BinOp::Rotr => Ok(rotr(a, b)),
    }
}

/// A unary operation by its name.
#[tactic(auto, unfolding(crate::specs::Integers::integer_unary))]
pub fn unary(op: UnOp, a: u64) -> u64
    ensures { result ≡ integer_unary op 64 a }
{
    match op {
        UnOp::Clz => u64::from(a.leading_zeros()),
        UnOp::Ctz => u64::from(a.trailing_zeros()),
        UnOp::Popcnt => u64::from(a.count_ones()),
        UnOp::Extend8S => extend_8(a),
        UnOp::Extend16S => extend_16(a),
        UnOp::Extend32S => extend_32(a),
    }
}

/// A comparison by its name.
#[tactic(auto, unfolding(crate::specs::Integers::integer_compare))]
pub fn compare(op: CmpOp, a: u64, b: u64) -> bool
    ensures { result ≡ integer_compare op 64 a b }
{
    match op {
        CmpOp::Eq => a == b,
        CmpOp::Ne => a != b,
        CmpOp::LtS => a.cast_signed() < b.cast_signed(),
        CmpOp::LtU => a < b,
        CmpOp::GtS => a.cast_signed() > b.cast_signed(),
        CmpOp::GtU => a > b,
        CmpOp::LeS => a.cast_signed() <= b.cast_signed(),
        CmpOp::LeU => a <= b,
        CmpOp::GeS => a.cast_signed() >= b.cast_signed(),
        CmpOp::GeU => a >= b,
    }
}

fn div_s(a: u64, b: u64) -> Result<u64, Trap>
    ensures { result ≡ idiv_s 64 a b }
{
    if b == 0 {
        return Err(Trap::DivideByZero);
    }
    if a == i64::MIN.cast_unsigned() && b == u64::MAX {
        return Err(Trap::Overflow);
    }
    Ok((a.cast_signed() / b.cast_signed()).cast_unsigned())
}

fn div_u(a: u64, b: u64) -> Result<u64, Trap>
    ensures { result ≡ idiv_u 64 a b }
{
    a.checked_div(b).ok_or(Trap::DivideByZero)
}

fn rem_s(a: u64, b: u64) -> Result<u64, Trap>
    ensures { result ≡ irem_s 64 a b }
{
    if b == 0 {
        return Err(Trap::DivideByZero);
    }
    Ok(
        a.cast_signed()
            .wrapping_rem(b.cast_signed())
            .cast_unsigned(),
    )
}

fn rem_u(a: u64, b: u64) -> Result<u64, Trap>
    ensures { result ≡ irem_u 64 a b }
{
    a.checked_rem(b).ok_or(Trap::DivideByZero)
}

/// The count of a shift or a rotation, modulo the width.
fn shift_count(b: u64) -> u32
    ensures { result ≡ b % 64 }
{
    (b % 64) as u32
}

fn shr_s(a: u64, b: u64) -> u64
    ensures { result ≡ ishr_s 64 a b }
{
    a.cast_signed().wrapping_shr(shift_count(b)).cast_unsigned()
}

fn shl(a: u64, b: u64) -> u64
    ensures { result ≡ ishl 64 a b }
{
    a.wrapping_shl(shift_count(b))
}

fn shr_u(a: u64, b: u64) -> u64
    ensures { result ≡ ishr_u 64 a b }
{
    a.wrapping_shr(shift_count(b))
}

fn rotl(a: u64, b: u64) -> u64
    ensures { result ≡ irotl 64 a b }
{
    a.rotate_left(shift_count(b))
}

fn rotr(a: u64, b: u64) -> u64
    ensures { result ≡ irotr 64 a b }
{
    a.rotate_right(shift_count(b))
}

fn extend_8(a: u64) -> u64
    ensures { result ≡ iextend_s 8 64 a }
{
    i64::from(((a & 0xff) as u8).cast_signed()).cast_unsigned()
}

fn extend_16(a: u64) -> u64
    ensures { result ≡ iextend_s 16 64 a }
{
    i64::from(((a & 0xffff) as u16).cast_signed()).cast_unsigned()
}

fn extend_32(a: u64) -> u64
    ensures { result ≡ iextend_s 32 64 a }
{
    extend_s((a & 0xffff_ffff) as u32)
}

/// The number of 64 bits that has the signed reading of one of 32.
pub fn extend_s(a: u32) -> u64
    ensures { result ≡ extend_s 32 64 a }
{
    i64::from(a.cast_signed()).cast_unsigned()
}
