//! Laws of the integer operations, as contracts of functions that do nothing. Each holds at every width,
//! and so of the numbers of 32 and of 64 bits that the calls of this crate take.

ghost use Rattle.std.specs.Prelude.{◌≡◌, negsuc};
ghost use Rattle.wasm_num.specs.Integers.{iadd, isub, imul, idiv_s, idiv_u, irem_s, irem_u};
ghost use Rattle.wasm_num.specs.Integers.{iand, ior, ixor, ishl, ishr_s, ishr_u, irotl, irotr};
ghost use Rattle.wasm_num.specs.Integers.{iclz, ictz, ipopcnt, signed, wrap, extend_u, extend_s, iextend_s};
ghost use Rattle.wasm_num.specs.Laws.{UnsignedQuotientTimesDivisor, SignedQuotientTimesDivisor};
ghost use Rattle.wasm_num.specs.Laws.{LeftThenRight, RightThenLeft};
ghost use Rattle.wasm_num.specs.Laws.{SignedExtensionThenWrap, UnsignedExtensionThenWrap};
ghost use Rattle.wasm_num.specs.Laws.{OnesAndZeros, DigitsTellNumber, ReadingTellsNumber};
ghost use Rattle.wasm_num.specs.Laws.{LeftShiftMultiplies, UnsignedShiftDivides, SignedShiftDivides};

use wasm_syntax::Trap;

/// Each operation on small numbers, most of 8 bits.
#[tactic(auto, unfolding(crate::specs::Integers::ibits, crate::specs::Integers::of_ibits, crate::specs::Integers::digitwise))]
pub fn worked_cases()
    ensures add { iadd 8 200 100 ≡ 44 }
    ensures sub { isub 8 1 2 ≡ 255 }
    ensures mul { imul 8 16 17 ≡ 16 }

    // -7 and 7 by 2 and -2, 7 by 0, and the least value by -1
    ensures signed { signed 8 249 ≡ negsuc 6 }
    ensures div_s { idiv_s 8 249 2 ≡ Ok 253 }
    ensures div_s_by_negative { idiv_s 8 7 254 ≡ Ok 253 }
    ensures div_u { idiv_u 8 249 2 ≡ Ok 124 }
    ensures div_by_zero { idiv_s 8 7 0 ≡ Err Trap.DivideByZero }
    ensures div_overflow { idiv_s 8 128 255 ≡ Err Trap.Overflow }
    ensures rem_s { irem_s 8 249 2 ≡ Ok 255 }
    ensures rem_s_by_negative { irem_s 8 7 254 ≡ Ok 1 }
    ensures rem_s_of_least { irem_s 8 128 255 ≡ Ok 0 }
    ensures rem_u { irem_u 8 249 2 ≡ Ok 1 }

    ensures and { iand 8 0b1100 0b1010 ≡ 0b1000 }
    ensures or { ior 8 0b1100 0b1010 ≡ 0b1110 }
    ensures xor { ixor 8 0b1100 0b1010 ≡ 0b0110 }
    ensures shl { ishl 8 0b1000_0011 9 ≡ 0b0000_0110 }
    ensures shr_s { ishr_s 8 0b1000_0011 9 ≡ 0b1100_0001 }
    ensures shr_u { ishr_u 8 0b1000_0011 9 ≡ 0b0100_0001 }
    ensures rotl { irotl 8 0b1000_0011 9 ≡ 0b0000_0111 }
    ensures rotr { irotr 8 0b1000_0011 9 ≡ 0b1100_0001 }
    ensures clz { iclz 8 0b0001_0100 ≡ 3 }
    ensures ctz { ictz 8 0b0001_0100 ≡ 2 }
    ensures popcnt { ipopcnt 8 0b0001_0100 ≡ 2 }

    ensures wrap { wrap 4 0b0101_1010 ≡ 0b1010 }
    ensures extend_u { extend_u 4 8 0b1010 ≡ 0b0000_1010 }
    ensures extend_s { extend_s 4 8 0b1010 ≡ 0b1111_1010 }
    ensures extend_part { iextend_s 4 8 0b0101_0110 ≡ 0b0000_0110 }
{}

/// A quotient times its divisor, plus the remainder, is the dividend.
pub fn quotients_and_remainders()
    ensures unsigned { UnsignedQuotientTimesDivisor }
    ensures signed { SignedQuotientTimesDivisor }
{}

/// A rotation and the same one back leave a number as it was.
pub fn rotations()
    ensures left_then_right { LeftThenRight }
    ensures right_then_left { RightThenLeft }
{}

/// A number that is extended and then wrapped is as it was.
pub fn extensions()
    ensures signed { SignedExtensionThenWrap }
    ensures unsigned { UnsignedExtensionThenWrap }
{}

/// A number and its complement have as many ones as their width.
pub fn ones_and_zeros()
    ensures { OnesAndZeros }
{}

/// A number can be told from its digits, and from its signed reading.
pub fn readings()
    ensures digits { DigitsTellNumber }
    ensures signed { ReadingTellsNumber }
{}

/// A shift multiplies by a power of two, or divides by it and rounds down.
pub fn shifts()
    ensures left { LeftShiftMultiplies }
    ensures unsigned_right { UnsignedShiftDivides }
    ensures signed_right { SignedShiftDivides }
{}
