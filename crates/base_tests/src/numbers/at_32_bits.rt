//! Each operation at the ends of the 32-bit type. The values were worked out from the standard's
//! formulas, on digits and fractions.

use wasm_num::{BinOp, CmpOp, Num, UnOp, binary, compare, is_zero, unary};
use wasm_syntax::Trap;

const MINUS_ONE: u32 = 0xffff_ffff;

const LEAST: u32 = 0x8000_0000;

const GREATEST: u32 = 0x7fff_ffff;

const ALTERNATING: u32 = 0x5555_5555;

const ALTERNATING_TWICE: u32 = 0xaaaa_aaaa;

const MIDDLE_BIT: u32 = 0x0001_0000;

static BINARY: [(BinOp, u32, u32, Result<u32, Trap>); 240] = [
    (BinOp::Add, 0, 0, Ok(0)),
    (BinOp::Add, 0, 1, Ok(1)),
    (BinOp::Add, 1, 0, Ok(1)),
    (BinOp::Add, MINUS_ONE, 0, Ok(MINUS_ONE)),
    (BinOp::Add, MINUS_ONE, 1, Ok(0)),
    (BinOp::Add, 1, MINUS_ONE, Ok(0)),
    (BinOp::Add, MINUS_ONE, MINUS_ONE, Ok(0xffff_fffe)),
    (BinOp::Add, LEAST, 1, Ok(0x8000_0001)),
    (BinOp::Add, LEAST, MINUS_ONE, Ok(GREATEST)),
    (BinOp::Add, LEAST, LEAST, Ok(0)),
    (BinOp::Add, GREATEST, 1, Ok(LEAST)),
    (BinOp::Add, GREATEST, GREATEST, Ok(0xffff_fffe)),
    (BinOp::Add, GREATEST, LEAST, Ok(MINUS_ONE)),
    (BinOp::Add, ALTERNATING, ALTERNATING_TWICE, Ok(MINUS_ONE)),
    (BinOp::Add, ALTERNATING_TWICE, ALTERNATING, Ok(MINUS_ONE)),
    (BinOp::Add, MIDDLE_BIT, 31, Ok(0x0001_001f)),
    (BinOp::Sub, 0, 0, Ok(0)),
    (BinOp::Sub, 0, 1, Ok(MINUS_ONE)),
    (BinOp::Sub, 1, 0, Ok(1)),
    (BinOp::Sub, MINUS_ONE, 0, Ok(MINUS_ONE)),
    (BinOp::Sub, MINUS_ONE, 1, Ok(0xffff_fffe)),
    (BinOp::Sub, 1, MINUS_ONE, Ok(2)),
    (BinOp::Sub, MINUS_ONE, MINUS_ONE, Ok(0)),
    (BinOp::Sub, LEAST, 1, Ok(GREATEST)),
    (BinOp::Sub, LEAST, MINUS_ONE, Ok(0x8000_0001)),
    (BinOp::Sub, LEAST, LEAST, Ok(0)),
    (BinOp::Sub, GREATEST, 1, Ok(0x7fff_fffe)),
    (BinOp::Sub, GREATEST, GREATEST, Ok(0)),
    (BinOp::Sub, GREATEST, LEAST, Ok(MINUS_ONE)),
    (BinOp::Sub, ALTERNATING, ALTERNATING_TWICE, Ok(0xaaaa_aaab)),
    (BinOp::Sub, ALTERNATING_TWICE, ALTERNATING, Ok(ALTERNATING)),
    (BinOp::Sub, MIDDLE_BIT, 31, Ok(0xffe1)),
    (BinOp::Mul, 0, 0, Ok(0)),
    (BinOp::Mul, 0, 1, Ok(0)),
    (BinOp::Mul, 1, 0, Ok(0)),
    (BinOp::Mul, MINUS_ONE, 0, Ok(0)),
    (BinOp::Mul, MINUS_ONE, 1, Ok(MINUS_ONE)),
    (BinOp::Mul, 1, MINUS_ONE, Ok(MINUS_ONE)),
    (BinOp::Mul, MINUS_ONE, MINUS_ONE, Ok(1)),
    (BinOp::Mul, LEAST, 1, Ok(LEAST)),
    (BinOp::Mul, LEAST, MINUS_ONE, Ok(LEAST)),
    (BinOp::Mul, LEAST, LEAST, Ok(0)),
    (BinOp::Mul, GREATEST, 1, Ok(GREATEST)),
    (BinOp::Mul, GREATEST, GREATEST, Ok(1)),
    (BinOp::Mul, GREATEST, LEAST, Ok(LEAST)),
    (BinOp::Mul, ALTERNATING, ALTERNATING_TWICE, Ok(0x71c7_1c72)),
    (BinOp::Mul, ALTERNATING_TWICE, ALTERNATING, Ok(0x71c7_1c72)),
    (BinOp::Mul, MIDDLE_BIT, 31, Ok(0x001f_0000)),
    (BinOp::DivS, 0, 0, Err(Trap::DivideByZero)),
    (BinOp::DivS, 0, 1, Ok(0)),
    (BinOp::DivS, 1, 0, Err(Trap::DivideByZero)),
    (BinOp::DivS, MINUS_ONE, 0, Err(Trap::DivideByZero)),
    (BinOp::DivS, MINUS_ONE, 1, Ok(MINUS_ONE)),
    (BinOp::DivS, 1, MINUS_ONE, Ok(MINUS_ONE)),
    (BinOp::DivS, MINUS_ONE, MINUS_ONE, Ok(1)),
    (BinOp::DivS, LEAST, 1, Ok(LEAST)),
    (BinOp::DivS, LEAST, MINUS_ONE, Err(Trap::Overflow)),
    (BinOp::DivS, LEAST, LEAST, Ok(1)),
    (BinOp::DivS, GREATEST, 1, Ok(GREATEST)),
    (BinOp::DivS, GREATEST, GREATEST, Ok(1)),
    (BinOp::DivS, GREATEST, LEAST, Ok(0)),
    (BinOp::DivS, ALTERNATING, ALTERNATING_TWICE, Ok(0)),
    (BinOp::DivS, ALTERNATING_TWICE, ALTERNATING, Ok(MINUS_ONE)),
    (BinOp::DivS, MIDDLE_BIT, 31, Ok(0x0842)),
    (BinOp::DivU, 0, 0, Err(Trap::DivideByZero)),
    (BinOp::DivU, 0, 1, Ok(0)),
    (BinOp::DivU, 1, 0, Err(Trap::DivideByZero)),
    (BinOp::DivU, MINUS_ONE, 0, Err(Trap::DivideByZero)),
    (BinOp::DivU, MINUS_ONE, 1, Ok(MINUS_ONE)),
    (BinOp::DivU, 1, MINUS_ONE, Ok(0)),
    (BinOp::DivU, MINUS_ONE, MINUS_ONE, Ok(1)),
    (BinOp::DivU, LEAST, 1, Ok(LEAST)),
    (BinOp::DivU, LEAST, MINUS_ONE, Ok(0)),
    (BinOp::DivU, LEAST, LEAST, Ok(1)),
    (BinOp::DivU, GREATEST, 1, Ok(GREATEST)),
    (BinOp::DivU, GREATEST, GREATEST, Ok(1)),
    (BinOp::DivU, GREATEST, LEAST, Ok(0)),
    (BinOp::DivU, ALTERNATING, ALTERNATING_TWICE, Ok(0)),
    (BinOp::DivU, ALTERNATING_TWICE, ALTERNATING, Ok(2)),
    (BinOp::DivU, MIDDLE_BIT, 31, Ok(0x0842)),
    (BinOp::RemS, 0, 0, Err(Trap::DivideByZero)),
    (BinOp::RemS, 0, 1, Ok(0)),
    (BinOp::RemS, 1, 0, Err(Trap::DivideByZero)),
    (BinOp::RemS, MINUS_ONE, 0, Err(Trap::DivideByZero)),
    (BinOp::RemS, MINUS_ONE, 1, Ok(0)),
    (BinOp::RemS, 1, MINUS_ONE, Ok(0)),
    (BinOp::RemS, MINUS_ONE, MINUS_ONE, Ok(0)),
    (BinOp::RemS, LEAST, 1, Ok(0)),
    (BinOp::RemS, LEAST, MINUS_ONE, Ok(0)),
    (BinOp::RemS, LEAST, LEAST, Ok(0)),
    (BinOp::RemS, GREATEST, 1, Ok(0)),
    (BinOp::RemS, GREATEST, GREATEST, Ok(0)),
    (BinOp::RemS, GREATEST, LEAST, Ok(GREATEST)),
    (BinOp::RemS, ALTERNATING, ALTERNATING_TWICE, Ok(ALTERNATING)),
    (BinOp::RemS, ALTERNATING_TWICE, ALTERNATING, Ok(MINUS_ONE)),
    (BinOp::RemS, MIDDLE_BIT, 31, Ok(2)),
    (BinOp::RemU, 0, 0, Err(Trap::DivideByZero)),
    (BinOp::RemU, 0, 1, Ok(0)),
    (BinOp::RemU, 1, 0, Err(Trap::DivideByZero)),
    (BinOp::RemU, MINUS_ONE, 0, Err(Trap::DivideByZero)),
    (BinOp::RemU, MINUS_ONE, 1, Ok(0)),
    (BinOp::RemU, 1, MINUS_ONE, Ok(1)),
    (BinOp::RemU, MINUS_ONE, MINUS_ONE, Ok(0)),
    (BinOp::RemU, LEAST, 1, Ok(0)),
    (BinOp::RemU, LEAST, MINUS_ONE, Ok(LEAST)),
    (BinOp::RemU, LEAST, LEAST, Ok(0)),
    (BinOp::RemU, GREATEST, 1, Ok(0)),
    (BinOp::RemU, GREATEST, GREATEST, Ok(0)),
    (BinOp::RemU, GREATEST, LEAST, Ok(GREATEST)),
    (BinOp::RemU, ALTERNATING, ALTERNATING_TWICE, Ok(ALTERNATING)),
    (BinOp::RemU, ALTERNATING_TWICE, ALTERNATING, Ok(0)),
    (BinOp::RemU, MIDDLE_BIT, 31, Ok(2)),
    (BinOp::And, 0, 0, Ok(0)),
    (BinOp::And, 0, 1, Ok(0)),
    (BinOp::And, 1, 0, Ok(0)),
    (BinOp::And, MINUS_ONE, 0, Ok(0)),
    (BinOp::And, MINUS_ONE, 1, Ok(1)),
    (BinOp::And, 1, MINUS_ONE, Ok(1)),
    (BinOp::And, MINUS_ONE, MINUS_ONE, Ok(MINUS_ONE)),
    (BinOp::And, LEAST, 1, Ok(0)),
    (BinOp::And, LEAST, MINUS_ONE, Ok(LEAST)),
    (BinOp::And, LEAST, LEAST, Ok(LEAST)),
    (BinOp::And, GREATEST, 1, Ok(1)),
    (BinOp::And, GREATEST, GREATEST, Ok(GREATEST)),
    (BinOp::And, GREATEST, LEAST, Ok(0)),
    (BinOp::And, ALTERNATING, ALTERNATING_TWICE, Ok(0)),
    (BinOp::And, ALTERNATING_TWICE, ALTERNATING, Ok(0)),
    (BinOp::And, MIDDLE_BIT, 31, Ok(0)),
    (BinOp::Or, 0, 0, Ok(0)),
    (BinOp::Or, 0, 1, Ok(1)),
    (BinOp::Or, 1, 0, Ok(1)),
    (BinOp::Or, MINUS_ONE, 0, Ok(MINUS_ONE)),
    (BinOp::Or, MINUS_ONE, 1, Ok(MINUS_ONE)),
    (BinOp::Or, 1, MINUS_ONE, Ok(MINUS_ONE)),
    (BinOp::Or, MINUS_ONE, MINUS_ONE, Ok(MINUS_ONE)),
    (BinOp::Or, LEAST, 1, Ok(0x8000_0001)),
    (BinOp::Or, LEAST, MINUS_ONE, Ok(MINUS_ONE)),
    (BinOp::Or, LEAST, LEAST, Ok(LEAST)),
    (BinOp::Or, GREATEST, 1, Ok(GREATEST)),
    (BinOp::Or, GREATEST, GREATEST, Ok(GREATEST)),
    (BinOp::Or, GREATEST, LEAST, Ok(MINUS_ONE)),
    (BinOp::Or, ALTERNATING, ALTERNATING_TWICE, Ok(MINUS_ONE)),
    (BinOp::Or, ALTERNATING_TWICE, ALTERNATING, Ok(MINUS_ONE)),
    (BinOp::Or, MIDDLE_BIT, 31, Ok(0x0001_001f)),
    (BinOp::Xor, 0, 0, Ok(0)),
    (BinOp::Xor, 0, 1, Ok(1)),
    (BinOp::Xor, 1, 0, Ok(1)),
    (BinOp::Xor, MINUS_ONE, 0, Ok(MINUS_ONE)),
    (BinOp::Xor, MINUS_ONE, 1, Ok(0xffff_fffe)),
    (BinOp::Xor, 1, MINUS_ONE, Ok(0xffff_fffe)),
    (BinOp::Xor, MINUS_ONE, MINUS_ONE, Ok(0)),
    (BinOp::Xor, LEAST, 1, Ok(0x8000_0001)),
    (BinOp::Xor, LEAST, MINUS_ONE, Ok(GREATEST)),
    (BinOp::Xor, LEAST, LEAST, Ok(0)),
    (BinOp::Xor, GREATEST, 1, Ok(0x7fff_fffe)),
    (BinOp::Xor, GREATEST, GREATEST, Ok(0)),
    (BinOp::Xor, GREATEST, LEAST, Ok(MINUS_ONE)),
    (BinOp::Xor, ALTERNATING, ALTERNATING_TWICE, Ok(MINUS_ONE)),
    (BinOp::Xor, ALTERNATING_TWICE, ALTERNATING, Ok(MINUS_ONE)),
    (BinOp::Xor, MIDDLE_BIT, 31, Ok(0x0001_001f)),
    (BinOp::Shl, 0, 0, Ok(0)),
    (BinOp::Shl, 0, 1, Ok(0)),
    (BinOp::Shl, 1, 0, Ok(1)),
    (BinOp::Shl, MINUS_ONE, 0, Ok(MINUS_ONE)),
    (BinOp::Shl, MINUS_ONE, 1, Ok(0xffff_fffe)),
    (BinOp::Shl, 1, MINUS_ONE, Ok(LEAST)),
    (BinOp::Shl, MINUS_ONE, MINUS_ONE, Ok(LEAST)),
    (BinOp::Shl, LEAST, 1, Ok(0)),
    (BinOp::Shl, LEAST, MINUS_ONE, Ok(0)),
    (BinOp::Shl, LEAST, LEAST, Ok(LEAST)),
    (BinOp::Shl, GREATEST, 1, Ok(0xffff_fffe)),
    (BinOp::Shl, GREATEST, GREATEST, Ok(LEAST)),
    (BinOp::Shl, GREATEST, LEAST, Ok(GREATEST)),
    (BinOp::Shl, ALTERNATING, ALTERNATING_TWICE, Ok(0x5555_5400)),
    (BinOp::Shl, ALTERNATING_TWICE, ALTERNATING, Ok(0x5540_0000)),
    (BinOp::Shl, MIDDLE_BIT, 31, Ok(0)),
    (BinOp::ShrS, 0, 0, Ok(0)),
    (BinOp::ShrS, 0, 1, Ok(0)),
    (BinOp::ShrS, 1, 0, Ok(1)),
    (BinOp::ShrS, MINUS_ONE, 0, Ok(MINUS_ONE)),
    (BinOp::ShrS, MINUS_ONE, 1, Ok(MINUS_ONE)),
    (BinOp::ShrS, 1, MINUS_ONE, Ok(0)),
    (BinOp::ShrS, MINUS_ONE, MINUS_ONE, Ok(MINUS_ONE)),
    (BinOp::ShrS, LEAST, 1, Ok(0xc000_0000)),
    (BinOp::ShrS, LEAST, MINUS_ONE, Ok(MINUS_ONE)),
    (BinOp::ShrS, LEAST, LEAST, Ok(LEAST)),
    (BinOp::ShrS, GREATEST, 1, Ok(0x3fff_ffff)),
    (BinOp::ShrS, GREATEST, GREATEST, Ok(0)),
    (BinOp::ShrS, GREATEST, LEAST, Ok(GREATEST)),
    (BinOp::ShrS, ALTERNATING, ALTERNATING_TWICE, Ok(0x0015_5555)),
    (BinOp::ShrS, ALTERNATING_TWICE, ALTERNATING, Ok(0xffff_fd55)),
    (BinOp::ShrS, MIDDLE_BIT, 31, Ok(0)),
    (BinOp::ShrU, 0, 0, Ok(0)),
    (BinOp::ShrU, 0, 1, Ok(0)),
    (BinOp::ShrU, 1, 0, Ok(1)),
    (BinOp::ShrU, MINUS_ONE, 0, Ok(MINUS_ONE)),
    (BinOp::ShrU, MINUS_ONE, 1, Ok(GREATEST)),
    (BinOp::ShrU, 1, MINUS_ONE, Ok(0)),
    (BinOp::ShrU, MINUS_ONE, MINUS_ONE, Ok(1)),
    (BinOp::ShrU, LEAST, 1, Ok(0x4000_0000)),
    (BinOp::ShrU, LEAST, MINUS_ONE, Ok(1)),
    (BinOp::ShrU, LEAST, LEAST, Ok(LEAST)),
    (BinOp::ShrU, GREATEST, 1, Ok(0x3fff_ffff)),
    (BinOp::ShrU, GREATEST, GREATEST, Ok(0)),
    (BinOp::ShrU, GREATEST, LEAST, Ok(GREATEST)),
    (BinOp::ShrU, ALTERNATING, ALTERNATING_TWICE, Ok(0x0015_5555)),
    (BinOp::ShrU, ALTERNATING_TWICE, ALTERNATING, Ok(0x0555)),
    (BinOp::ShrU, MIDDLE_BIT, 31, Ok(0)),
    (BinOp::Rotl, 0, 0, Ok(0)),
    (BinOp::Rotl, 0, 1, Ok(0)),
    (BinOp::Rotl, 1, 0, Ok(1)),
    (BinOp::Rotl, MINUS_ONE, 0, Ok(MINUS_ONE)),
    (BinOp::Rotl, MINUS_ONE, 1, Ok(MINUS_ONE)),
    (BinOp::Rotl, 1, MINUS_ONE, Ok(LEAST)),
    (BinOp::Rotl, MINUS_ONE, MINUS_ONE, Ok(MINUS_ONE)),
    (BinOp::Rotl, LEAST, 1, Ok(1)),
    (BinOp::Rotl, LEAST, MINUS_ONE, Ok(0x4000_0000)),
    (BinOp::Rotl, LEAST, LEAST, Ok(LEAST)),
    (BinOp::Rotl, GREATEST, 1, Ok(0xffff_fffe)),
    (BinOp::Rotl, GREATEST, GREATEST, Ok(0xbfff_ffff)),
    (BinOp::Rotl, GREATEST, LEAST, Ok(GREATEST)),
    (BinOp::Rotl, ALTERNATING, ALTERNATING_TWICE, Ok(ALTERNATING)),
    (BinOp::Rotl, ALTERNATING_TWICE, ALTERNATING, Ok(ALTERNATING)),
    (BinOp::Rotl, MIDDLE_BIT, 31, Ok(0x8000)),
    (BinOp::Rotr, 0, 0, Ok(0)),
    (BinOp::Rotr, 0, 1, Ok(0)),
    (BinOp::Rotr, 1, 0, Ok(1)),
    (BinOp::Rotr, MINUS_ONE, 0, Ok(MINUS_ONE)),
    (BinOp::Rotr, MINUS_ONE, 1, Ok(MINUS_ONE)),
    (BinOp::Rotr, 1, MINUS_ONE, Ok(2)),
    (BinOp::Rotr, MINUS_ONE, MINUS_ONE, Ok(MINUS_ONE)),
    (BinOp::Rotr, LEAST, 1, Ok(0x4000_0000)),
    (BinOp::Rotr, LEAST, MINUS_ONE, Ok(1)),
    (BinOp::Rotr, LEAST, LEAST, Ok(LEAST)),
    (BinOp::Rotr, GREATEST, 1, Ok(0xbfff_ffff)),
    (BinOp::Rotr, GREATEST, GREATEST, Ok(0xffff_fffe)),
    (BinOp::Rotr, GREATEST, LEAST, Ok(GREATEST)),
    (BinOp::Rotr, ALTERNATING, ALTERNATING_TWICE, Ok(ALTERNATING)),
    (BinOp::Rotr, ALTERNATING_TWICE, ALTERNATING, Ok(ALTERNATING)),
    (BinOp::Rotr, MIDDLE_BIT, 31, Ok(0x0002_0000)),
];

// the results in the order of `UNARY_OPERATIONS`
const UNARY_OPERATIONS: [UnOp; 5] = [
    UnOp::Clz,
    UnOp::Ctz,
    UnOp::Popcnt,
    UnOp::Extend8S,
    UnOp::Extend16S,
];

static UNARY: [(u32, [u32; 5]); 13] = [
    (0, [32, 32, 0, 0, 0]),
    (1, [31, 0, 1, 1, 1]),
    (MINUS_ONE, [0, 0, 32, MINUS_ONE, MINUS_ONE]),
    (LEAST, [0, 31, 1, 0, 0]),
    (GREATEST, [1, 0, 31, MINUS_ONE, MINUS_ONE]),
    (ALTERNATING, [1, 0, 16, 85, 0x5555]),
    (ALTERNATING_TWICE, [0, 1, 16, 0xffff_ffaa, 0xffff_aaaa]),
    (MIDDLE_BIT, [15, 16, 1, 0, 0]),
    (0x0080, [24, 7, 1, 0xffff_ff80, 0x0080]),
    (0x007f, [25, 0, 7, 0x007f, 0x007f]),
    (0x8000, [16, 15, 1, 0, 0xffff_8000]),
    (0x7fff, [17, 0, 15, MINUS_ONE, 0x7fff]),
    (0x0001_7fff, [15, 0, 16, MINUS_ONE, 0x7fff]),
];

const COMPARISONS: [CmpOp; 10] = [
    CmpOp::Eq,
    CmpOp::Ne,
    CmpOp::LtS,
    CmpOp::LtU,
    CmpOp::GtS,
    CmpOp::GtU,
    CmpOp::LeS,
    CmpOp::LeU,
    CmpOp::GeS,
    CmpOp::GeU,
];

// the comparisons that hold
static COMPARED: [(u32, u32, &[CmpOp]); 16] = [
    (
        0,
        0,
        &[CmpOp::Eq, CmpOp::LeS, CmpOp::LeU, CmpOp::GeS, CmpOp::GeU],
    ),
    (
        0,
        1,
        &[CmpOp::Ne, CmpOp::LtS, CmpOp::LtU, CmpOp::LeS, CmpOp::LeU],
    ),
    (
        1,
        0,
        &[CmpOp::Ne, CmpOp::GtS, CmpOp::GtU, CmpOp::GeS, CmpOp::GeU],
    ),
    (
        MINUS_ONE,
        0,
        &[CmpOp::Ne, CmpOp::LtS, CmpOp::GtU, CmpOp::LeS, CmpOp::GeU],
    ),
    (
        MINUS_ONE,
        1,
        &[CmpOp::Ne, CmpOp::LtS, CmpOp::GtU, CmpOp::LeS, CmpOp::GeU],
    ),
    (
        1,
        MINUS_ONE,
        &[CmpOp::Ne, CmpOp::LtU, CmpOp::GtS, CmpOp::LeU, CmpOp::GeS],
    ),
    (
        MINUS_ONE,
        MINUS_ONE,
        &[CmpOp::Eq, CmpOp::LeS, CmpOp::LeU, CmpOp::GeS, CmpOp::GeU],
    ),
    (
        LEAST,
        1,
        &[CmpOp::Ne, CmpOp::LtS, CmpOp::GtU, CmpOp::LeS, CmpOp::GeU],
    ),
    (
        LEAST,
        MINUS_ONE,
        &[CmpOp::Ne, CmpOp::LtS, CmpOp::LtU, CmpOp::LeS, CmpOp::LeU],
    ),
    (
        LEAST,
        LEAST,
        &[CmpOp::Eq, CmpOp::LeS, CmpOp::LeU, CmpOp::GeS, CmpOp::GeU],
    ),
    (
        GREATEST,
        1,
        &[CmpOp::Ne, CmpOp::GtS, CmpOp::GtU, CmpOp::GeS, CmpOp::GeU],
    ),
    (
        GREATEST,
        GREATEST,
        &[CmpOp::Eq, CmpOp::LeS, CmpOp::LeU, CmpOp::GeS, CmpOp::GeU],
    ),
    (
        GREATEST,
        LEAST,
        &[CmpOp::Ne, CmpOp::LtU, CmpOp::GtS, CmpOp::LeU, CmpOp::GeS],
    ),
    (
        ALTERNATING,
        ALTERNATING_TWICE,
        &[CmpOp::Ne, CmpOp::LtU, CmpOp::GtS, CmpOp::LeU, CmpOp::GeS],
    ),
    (
        ALTERNATING_TWICE,
        ALTERNATING,
        &[CmpOp::Ne, CmpOp::LtS, CmpOp::GtU, CmpOp::LeS, CmpOp::GeU],
    ),
    (
        MIDDLE_BIT,
        31,
        &[CmpOp::Ne, CmpOp::GtS, CmpOp::GtU, CmpOp::GeS, CmpOp::GeU],
    ),
];

#[test]
fn binary_operations(rt: HostRuntime) {
    for (op, a, b, expected) in &BINARY {
        let result = binary(*op, Num::I32(*a), Num::I32(*b));
        assert_eq!(rt;
            result,
            expected.map(Num::I32),
            "{op:?} of {a:#x} and {b:#x}"
        );
    }
}

#[test]
fn unary_operations(rt: HostRuntime) {
    for (a, results) in &UNARY {
        for (op, expected) in UNARY_OPERATIONS.iter().zip(results.iter()) {
            assert_eq!(rt;
                unary(*op, Num::I32(*a)),
                Num::I32(*expected),
                "{op:?} of {a:#x}"
            );
        }
        assert_eq!(rt; is_zero(Num::I32(*a)), *a == 0, "{a:#x}");
    }
}

#[test]
fn comparisons(rt: HostRuntime) {
    for (a, b, holding) in &COMPARED {
        for op in COMPARISONS {
            let result = compare(op, Num::I32(*a), Num::I32(*b));
            assert_eq!(rt;
                result,
                holding.contains(&op),
                "{op:?} of {a:#x} and {b:#x}"
            );
        }
    }
}
