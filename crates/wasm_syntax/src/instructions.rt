//! Instructions (WebAssembly Core 2.0, section 2.4), named as in the text format.

use crate::types::ValType;
use sqlite_items::{Boxed, Items};

/// The number of a block in its module. Each sequence of instructions of a module is a block: a body, a part of a `block`, `loop`
/// or `if`, and an expression outside the bodies.
#[derive(Clone, Copy, PartialEq, Eq, Debug)]
pub struct BlockId(pub u32);

/// The type of a block.
#[derive(Clone, Copy, PartialEq, Eq, Debug)]
pub enum BlockType {
    /// No operands and no result.
    Empty,
    /// No operands and one result.
    One(ValType),
    /// The type with this index.
    Index(u32),
}

/// Where in its memory an access is made. `align` is the exponent of a power of 2, and a hint alone.
#[derive(Clone, Copy, PartialEq, Eq, Debug)]
pub struct MemArg {
    pub align: u32,
    pub offset: u32,
}

/// What an `if` holds.
#[derive(Clone, Copy, PartialEq, Eq, Debug)]
pub struct IfParts {
    pub ty: BlockType,
    pub body: BlockId,
    /// An empty block where there is no `else`.
    pub other: BlockId,
}

/// An instruction with its immediates, in 16 bytes: what doesn't fit stands behind a `Boxed`, which contracts see as the value in
/// it. Labels count the enclosing blocks from the innermost on, and indices the things of their
/// kind in the module, imports first. Constants and integers have no sign.
#[derive(Debug, Drop)]
pub enum Instr {
    Unreachable,
    Nop,
    Block(BlockType, BlockId),
    Loop(BlockType, BlockId),
    If(Boxed<IfParts>),
    Br(u32),
    BrIf(u32),
    /// The labels to choose from, and the one for every greater number.
    BrTable {
        default: u32,
        labels: Boxed<Items<u32>>,
    },
    Return,
    Call(u32),
    CallIndirect {
        ty: u32,
        table: u32,
    },
    Drop,
    Select,
    /// `select` with its result types. A valid module has one.
    SelectTyped(Boxed<Items<ValType>>),
    LocalGet(u32),
    LocalSet(u32),
    LocalTee(u32),
    GlobalGet(u32),
    GlobalSet(u32),
    TableGet(u32),
    TableSet(u32),
    I32Load(MemArg),
    I64Load(MemArg),
    I32Load8S(MemArg),
    I32Load8U(MemArg),
    I32Load16S(MemArg),
    I32Load16U(MemArg),
    I64Load8S(MemArg),
    I64Load8U(MemArg),
    I64Load16S(MemArg),
    I64Load16U(MemArg),
    I64Load32S(MemArg),
    I64Load32U(MemArg),
    I32Store(MemArg),
    I64Store(MemArg),
    I32Store8(MemArg),
    I32Store16(MemArg),
    I64Store8(MemArg),
    I64Store16(MemArg),
    I64Store32(MemArg),
    MemorySize,
    MemoryGrow,
    I32Const(u32),
    I64Const(u64),
    I32Eqz,
    I32Eq,
    I32Ne,
    I32LtS,
    I32LtU,
    I32GtS,
    I32GtU,
    I32LeS,
    I32LeU,
    I32GeS,
    I32GeU,
    I64Eqz,
    I64Eq,
    I64Ne,
    I64LtS,
    I64LtU,
    I64GtS,
    I64GtU,
    I64LeS,
    I64LeU,
    I64GeS,
    I64GeU,
    I32Clz,
    I32Ctz,
    I32Popcnt,
    I32Add,
    I32Sub,
    I32Mul,
    I32DivS,
    I32DivU,
    I32RemS,
    I32RemU,
    I32And,
    I32Or,
    I32Xor,
    I32Shl,
    I32ShrS,
    I32ShrU,
    I32Rotl,
    I32Rotr,
    I64Clz,
    I64Ctz,
    I64Popcnt,
    I64Add,
    I64Sub,
    I64Mul,
    I64DivS,
    I64DivU,
    I64RemS,
    I64RemU,
    I64And,
    I64Or,
    I64Xor,
    I64Shl,
    I64ShrS,
    I64ShrU,
    I64Rotl,
    I64Rotr,
    I32WrapI64,
    I64ExtendI32S,
    I64ExtendI32U,
    I32Extend8S,
    I32Extend16S,
    I64Extend8S,
    I64Extend16S,
    I64Extend32S,
    RefNull(ValType),
    RefIsNull,
    RefFunc(u32),
    /// From the data segment with this index.
    MemoryInit(u32),
    DataDrop(u32),
    MemoryCopy,
    MemoryFill,
    TableInit {
        elem: u32,
        table: u32,
    },
    ElemDrop(u32),
    TableCopy {
        to: u32,
        from: u32,
    },
    TableGrow(u32),
    TableSize(u32),
    TableFill(u32),
}

/// The room that an instruction takes in a module.
const _: () = prove!(size_of::<Instr>() == 16);
