//! Numbers, and the names of the operations on them (WebAssembly Core 2.0, sections 2.3.1 and 2.4.1).

/// The type of a number.
#[derive(Clone, Copy, PartialEq, Eq, Debug)]
pub enum NumType {
    I32,
    I64,
}

/// A number of the type `i32` or `i64` of WebAssembly. The types have no sign: an operation whose name
/// ends in `_s` reads its operands in two's complement.
#[derive(Clone, Copy, PartialEq, Eq, Debug)]
pub enum Num {
    /// 32 bits.
    I32(u32),
    /// 64 bits.
    I64(u64),
}

/// The operations that give a number from two of one width (`ibinop` in WebAssembly Core 2.0,
/// section 2.4.1).
#[derive(Clone, Copy, PartialEq, Eq, Debug)]
pub enum BinOp {
    Add,
    Sub,
    Mul,
    DivS,
    DivU,
    RemS,
    RemU,
    And,
    Or,
    Xor,
    Shl,
    ShrS,
    ShrU,
    Rotl,
    Rotr,
}

/// The operations that give a number from one of the same width (`iunop`, `extend8_s`, `extend16_s`
/// and `extend32_s`).
#[derive(Clone, Copy, PartialEq, Eq, Debug)]
pub enum UnOp {
    Clz,
    Ctz,
    Popcnt,
    Extend8S,
    Extend16S,
    /// Of an `i64` alone.
    Extend32S,
}

/// The comparisons of two numbers of one width (`irelop`).
#[derive(Clone, Copy, PartialEq, Eq, Debug)]
pub enum CmpOp {
    Eq,
    Ne,
    LtS,
    LtU,
    GtS,
    GtU,
    LeS,
    LeU,
    GeS,
    GeU,
}

/// The conversions between the widths.
#[derive(Clone, Copy, PartialEq, Eq, Debug)]
pub enum ConvOp {
    /// `i32.wrap_i64`: the low 32 bits.
    Wrap,
    /// `i64.extend_i32_s`.
    ExtendS,
    /// `i64.extend_i32_u`.
    ExtendU,
}

/// How many bits of a memory a load reads or a store writes.
#[derive(Clone, Copy, PartialEq, Eq, Debug)]
pub enum Width {
    Bits8,
    Bits16,
    Bits32,
    Bits64,
}

/// How a load makes a number of the bits that it has read: with the sign of their two's complement, or with zeros before them (`sx`).
#[derive(Clone, Copy, PartialEq, Eq, Debug)]
pub enum Extension {
    Signed,
    Unsigned,
}
