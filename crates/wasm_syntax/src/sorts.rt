//! What an instruction is, without its lists: one table for the typing and the running of instructions.

ghost use Rattle.std.specs.Prelude.{◌≡◌, Some, true, false};
ghost use Rattle.wasm_syntax.specs.Sorts.{sort_of, nesting_of, labels_of, types_of, is_within};

use crate::instructions::{BlockId, BlockType, IfParts, Instr, MemArg};
use crate::numbers::{BinOp, CmpOp, ConvOp, Extension, Num, NumType, UnOp, Width};
use crate::types::ValType;

/// An instruction that has one type in its module (WebAssembly Core 2.0, sections 3.3.1 to 3.3.7), in the standard's words: it
/// takes operands of fixed types, gives at most one, and goes on. `i32.add` is a binary operation of i32, `i64.load32_s` a load of 32
/// bits for an i64.
#[derive(Clone, Copy, Debug)]
pub enum Simple {
    Nop,
    Const(Num),
    Unary(NumType, UnOp),
    Binary(NumType, BinOp),
    /// `eqz`.
    Test(NumType),
    Compare(NumType, CmpOp),
    Convert(ConvOp),
    /// As many bits as the type has are read without a sign.
    Load {
        ty: NumType,
        width: Width,
        extension: Extension,
        at: MemArg,
    },
    Store {
        ty: NumType,
        width: Width,
        at: MemArg,
    },
    MemorySize,
    MemoryGrow,
    MemoryInit(u32),
    DataDrop(u32),
    MemoryCopy,
    MemoryFill,
    LocalGet(u32),
    LocalSet(u32),
    LocalTee(u32),
    GlobalGet(u32),
    GlobalSet(u32),
    TableGet(u32),
    TableSet(u32),
    TableInit {
        elem: u32,
        table: u32,
    },
    ElemDrop(u32),
    TableCopy {
        to: u32,
        from: u32,
    },
    TableGrow(u32),
    TableSize(u32),
    TableFill(u32),
    RefNull(ValType),
    RefFunc(u32),
}

/// A `block`, a `loop` or an `if`: its type, and the blocks that it holds. Lists of an instruction never stand here.
#[derive(Clone, Copy, Debug)]
pub struct Nesting {
    pub ty: BlockType,
    pub body: BlockId,
    /// The second block of an `if`.
    pub other: Option<BlockId>,
    /// Whether it is a loop, so that a branch goes to its start.
    pub again: bool,
}

/// What an instruction is. Its lists, where it has any, stay in the instruction: [`Instr::labels`] and [`Instr::types`] lend them.
#[derive(Clone, Copy, Debug)]
pub enum Sort {
    /// It has one type.
    Simple(Simple),
    /// It holds blocks.
    Nested(Nesting),
    Unreachable,
    Br(u32),
    BrIf(u32),
    /// `br_table`, with its default label.
    BrTable(u32),
    Return,
    Call(u32),
    CallIndirect { ty: u32, table: u32 },
    Drop,
    Select,
    /// `select` with its types.
    SelectTyped,
    RefIsNull,
}

fn holding(ty: BlockType, body: BlockId, other: Option<BlockId>, again: bool) -> Nesting
    ensures { result ≡ record { ty = ty; body = body; other = other; again = again } }
{
    Nesting {
        ty,
        body,
        other,
        again,
    }
}

fn if_nesting(parts: IfParts) -> Nesting
    ensures { result ≡ record { ty = parts.ty; body = parts.body; other = Some parts.other; again = false } }
{
    holding(parts.ty, parts.body, Some(parts.other), false)
}

fn load(ty: NumType, width: Width, extension: Extension, at: MemArg) -> Sort
    ensures { result ≡ Sort.Simple (Simple.Load ty width extension at) }
{
    Sort::Simple(Simple::Load {
        ty,
        width,
        extension,
        at,
    })
}

fn store(ty: NumType, width: Width, at: MemArg) -> Sort
    ensures { result ≡ Sort.Simple (Simple.Store ty width at) }
{
    Sort::Simple(Simple::Store { ty, width, at })
}

impl Instr {
    /// What the instruction is, without its lists.
    pub fn sort(&self) -> Sort
        ensures value { result ≡ sort_of self.now }
        ensures within { is_within result ≡ true }
    {
        match self {
            Instr::Unreachable => Sort::Unreachable,
            Instr::Nop => Sort::Simple(Simple::Nop),
            Instr::Block(ty, body) => Sort::Nested(holding(*ty, *body, None, false)),
            Instr::Loop(ty, body) => Sort::Nested(holding(*ty, *body, None, true)),
            Instr::If(parts) => Sort::Nested(if_nesting(*parts.get())),
            Instr::Br(label) => Sort::Br(*label),
            Instr::BrIf(label) => Sort::BrIf(*label),
            Instr::BrTable { default, .. } => Sort::BrTable(*default),
            Instr::Return => Sort::Return,
            Instr::Call(index) => Sort::Call(*index),
            Instr::CallIndirect { ty, table } => Sort::CallIndirect {
                ty: *ty,
                table: *table,
            },
            Instr::Drop => Sort::Drop,
            Instr::Select => Sort::Select,
            Instr::SelectTyped(_) => Sort::SelectTyped,
            Instr::LocalGet(index) => Sort::Simple(Simple::LocalGet(*index)),
            Instr::LocalSet(index) => Sort::Simple(Simple::LocalSet(*index)),
            Instr::LocalTee(index) => Sort::Simple(Simple::LocalTee(*index)),
            Instr::GlobalGet(index) => Sort::Simple(Simple::GlobalGet(*index)),
            Instr::GlobalSet(index) => Sort::Simple(Simple::GlobalSet(*index)),
            Instr::TableGet(index) => Sort::Simple(Simple::TableGet(*index)),
            Instr::TableSet(index) => Sort::Simple(Simple::TableSet(*index)),
            Instr::I32Load(at) => load(NumType::I32, Width::Bits32, Extension::Unsigned, *at),
            Instr::I64Load(at) => load(NumType::I64, Width::Bits64, Extension::Unsigned, *at),
            Instr::I32Load8S(at) => load(NumType::I32, Width::Bits8, Extension::Signed, *at),
            Instr::I32Load8U(at) => load(NumType::I32, Width::Bits8, Extension::Unsigned, *at),
            Instr::I32Load16S(at) => load(NumType::I32, Width::Bits16, Extension::Signed, *at),
            Instr::I32Load16U(at) => load(NumType::I32, Width::Bits16, Extension::Unsigned, *at),
            Instr::I64Load8S(at) => load(NumType::I64, Width::Bits8, Extension::Signed, *at),
            Instr::I64Load8U(at) => load(NumType::I64, Width::Bits8, Extension::Unsigned, *at),
            Instr::I64Load16S(at) => load(NumType::I64, Width::Bits16, Extension::Signed, *at),
            Instr::I64Load16U(at) => load(NumType::I64, Width::Bits16, Extension::Unsigned, *at),
            Instr::I64Load32S(at) => load(NumType::I64, Width::Bits32, Extension::Signed, *at),
            Instr::I64Load32U(at) => load(NumType::I64, Width::Bits32, Extension::Unsigned, *at),
            Instr::I32Store(at) => store(NumType::I32, Width::Bits32, *at),
            Instr::I64Store(at) => store(NumType::I64, Width::Bits64, *at),
            Instr::I32Store8(at) => store(NumType::I32, Width::Bits8, *at),
            Instr::I32Store16(at) => store(NumType::I32, Width::Bits16, *at),
            Instr::I64Store8(at) => store(NumType::I64, Width::Bits8, *at),
            Instr::I64Store16(at) => store(NumType::I64, Width::Bits16, *at),
            Instr::I64Store32(at) => store(NumType::I64, Width::Bits32, *at),
            Instr::MemorySize => Sort::Simple(Simple::MemorySize),
            Instr::MemoryGrow => Sort::Simple(Simple::MemoryGrow),
            Instr::I32Const(number) => Sort::Simple(Simple::Const(Num::I32(*number))),
            Instr::I64Const(number) => Sort::Simple(Simple::Const(Num::I64(*number))),
            Instr::I32Eqz => Sort::Simple(Simple::Test(NumType::I32)),
            Instr::I32Eq => Sort::Simple(Simple::Compare(NumType::I32, CmpOp::Eq)),
            Instr::I32Ne => Sort::Simple(Simple::Compare(NumType::I32, CmpOp::Ne)),
            Instr::I32LtS => Sort::Simple(Simple::Compare(NumType::I32, CmpOp::LtS)),
            Instr::I32LtU => Sort::Simple(Simple::Compare(NumType::I32, CmpOp::LtU)),
            Instr::I32GtS => Sort::Simple(Simple::Compare(NumType::I32, CmpOp::GtS)),
            Instr::I32GtU => Sort::Simple(Simple::Compare(NumType::I32, CmpOp::GtU)),
            Instr::I32LeS => Sort::Simple(Simple::Compare(NumType::I32, CmpOp::LeS)),
            Instr::I32LeU => Sort::Simple(Simple::Compare(NumType::I32, CmpOp::LeU)),
            Instr::I32GeS => Sort::Simple(Simple::Compare(NumType::I32, CmpOp::GeS)),
            Instr::I32GeU => Sort::Simple(Simple::Compare(NumType::I32, CmpOp::GeU)),
            Instr::I64Eqz => Sort::Simple(Simple::Test(NumType::I64)),
            Instr::I64Eq => Sort::Simple(Simple::Compare(NumType::I64, CmpOp::Eq)),
            Instr::I64Ne => Sort::Simple(Simple::Compare(NumType::I64, CmpOp::Ne)),
            Instr::I64LtS => Sort::Simple(Simple::Compare(NumType::I64, CmpOp::LtS)),
            Instr::I64LtU => Sort::Simple(Simple::Compare(NumType::I64, CmpOp::LtU)),
            Instr::I64GtS => Sort::Simple(Simple::Compare(NumType::I64, CmpOp::GtS)),
            Instr::I64GtU => Sort::Simple(Simple::Compare(NumType::I64, CmpOp::GtU)),
            Instr::I64LeS => Sort::Simple(Simple::Compare(NumType::I64, CmpOp::LeS)),
            Instr::I64LeU => Sort::Simple(Simple::Compare(NumType::I64, CmpOp::LeU)),
            Instr::I64GeS => Sort::Simple(Simple::Compare(NumType::I64, CmpOp::GeS)),
            Instr::I64GeU => Sort::Simple(Simple::Compare(NumType::I64, CmpOp::GeU)),
            Instr::I32Clz => Sort::Simple(Simple::Unary(NumType::I32, UnOp::Clz)),
            Instr::I32Ctz => Sort::Simple(Simple::Unary(NumType::I32, UnOp::Ctz)),
            Instr::I32Popcnt => Sort::Simple(Simple::Unary(NumType::I32, UnOp::Popcnt)),
            Instr::I32Add => Sort::Simple(Simple::Binary(NumType::I32, BinOp::Add)),
            Instr::I32Sub => Sort::Simple(Simple::Binary(NumType::I32, BinOp::Sub)),
            Instr::I32Mul => Sort::Simple(Simple::Binary(NumType::I32, BinOp::Mul)),
            Instr::I32DivS => Sort::Simple(Simple::Binary(NumType::I32, BinOp::DivS)),
            Instr::I32DivU => Sort::Simple(Simple::Binary(NumType::I32, BinOp::DivU)),
            Instr::I32RemS => Sort::Simple(Simple::Binary(NumType::I32, BinOp::RemS)),
            Instr::I32RemU => Sort::Simple(Simple::Binary(NumType::I32, BinOp::RemU)),
            Instr::I32And => Sort::Simple(Simple::Binary(NumType::I32, BinOp::And)),
            Instr::I32Or => Sort::Simple(Simple::Binary(NumType::I32, BinOp::Or)),
            Instr::I32Xor => Sort::Simple(Simple::Binary(NumType::I32, BinOp::Xor)),
            Instr::I32Shl => Sort::Simple(Simple::Binary(NumType::I32, BinOp::Shl)),
            Instr::I32ShrS => Sort::Simple(Simple::Binary(NumType::I32, BinOp::ShrS)),
            Instr::I32ShrU => Sort::Simple(Simple::Binary(NumType::I32, BinOp::ShrU)),
            Instr::I32Rotl => Sort::Simple(Simple::Binary(NumType::I32, BinOp::Rotl)),
            Instr::I32Rotr => Sort::Simple(Simple::Binary(NumType::I32, BinOp::Rotr)),
            Instr::I64Clz => Sort::Simple(Simple::Unary(NumType::I64, UnOp::Clz)),
            Instr::I64Ctz => Sort::Simple(Simple::Unary(NumType::I64, UnOp::Ctz)),
            Instr::I64Popcnt => Sort::Simple(Simple::Unary(NumType::I64, UnOp::Popcnt)),
            Instr::I64Add => Sort::Simple(Simple::Binary(NumType::I64, BinOp::Add)),
            Instr::I64Sub => Sort::Simple(Simple::Binary(NumType::I64, BinOp::Sub)),
            Instr::I64Mul => Sort::Simple(Simple::Binary(NumType::I64, BinOp::Mul)),
            Instr::I64DivS => Sort::Simple(Simple::Binary(NumType::I64, BinOp::DivS)),
            Instr::I64DivU => Sort::Simple(Simple::Binary(NumType::I64, BinOp::DivU)),
            Instr::I64RemS => Sort::Simple(Simple::Binary(NumType::I64, BinOp::RemS)),
            Instr::I64RemU => Sort::Simple(Simple::Binary(NumType::I64, BinOp::RemU)),
            Instr::I64And => Sort::Simple(Simple::Binary(NumType::I64, BinOp::And)),
            Instr::I64Or => Sort::Simple(Simple::Binary(NumType::I64, BinOp::Or)),
            Instr::I64Xor => Sort::Simple(Simple::Binary(NumType::I64, BinOp::Xor)),
            Instr::I64Shl => Sort::Simple(Simple::Binary(NumType::I64, BinOp::Shl)),
            Instr::I64ShrS => Sort::Simple(Simple::Binary(NumType::I64, BinOp::ShrS)),
            Instr::I64ShrU => Sort::Simple(Simple::Binary(NumType::I64, BinOp::ShrU)),
            Instr::I64Rotl => Sort::Simple(Simple::Binary(NumType::I64, BinOp::Rotl)),
            Instr::I64Rotr => Sort::Simple(Simple::Binary(NumType::I64, BinOp::Rotr)),
            Instr::I32WrapI64 => Sort::Simple(Simple::Convert(ConvOp::Wrap)),
            Instr::I64ExtendI32S => Sort::Simple(Simple::Convert(ConvOp::ExtendS)),
            Instr::I64ExtendI32U => Sort::Simple(Simple::Convert(ConvOp::ExtendU)),
            Instr::I32Extend8S => Sort::Simple(Simple::Unary(NumType::I32, UnOp::Extend8S)),
            Instr::I32Extend16S => Sort::Simple(Simple::Unary(NumType::I32, UnOp::Extend16S)),
            Instr::I64Extend8S => Sort::Simple(Simple::Unary(NumType::I64, UnOp::Extend8S)),
            Instr::I64Extend16S => Sort::Simple(Simple::Unary(NumType::I64, UnOp::Extend16S)),
            Instr::I64Extend32S => Sort::Simple(Simple::Unary(NumType::I64, UnOp::Extend32S)),
            Instr::RefNull(ty) => Sort::Simple(Simple::RefNull(*ty)),
            Instr::RefIsNull => Sort::RefIsNull,
            Instr::RefFunc(index) => Sort::Simple(Simple::RefFunc(*index)),
            Instr::MemoryInit(index) => Sort::Simple(Simple::MemoryInit(*index)),
            Instr::DataDrop(index) => Sort::Simple(Simple::DataDrop(*index)),
            Instr::MemoryCopy => Sort::Simple(Simple::MemoryCopy),
            Instr::MemoryFill => Sort::Simple(Simple::MemoryFill),
            Instr::TableInit { elem, table } => Sort::Simple(Simple::TableInit {
                elem: *elem,
                table: *table,
            }),
            Instr::ElemDrop(index) => Sort::Simple(Simple::ElemDrop(*index)),
            Instr::TableCopy { to, from } => Sort::Simple(Simple::TableCopy {
                to: *to,
                from: *from,
            }),
            Instr::TableGrow(index) => Sort::Simple(Simple::TableGrow(*index)),
            Instr::TableSize(index) => Sort::Simple(Simple::TableSize(*index)),
            Instr::TableFill(index) => Sort::Simple(Simple::TableFill(*index)),
        }
    }

    /// The blocks that the instruction holds.
    pub fn nesting(&self) -> Option<Nesting>
        ensures { result ≡ nesting_of self.now }
    {
        match self.sort() {
            Sort::Nested(nesting) => Some(nesting),
            _ => None,
        }
    }

    /// The labels that a `br_table` chooses from, without its default: no other instruction has any.
    pub fn labels(&self) -> &[u32]
        ensures { result.now ≡ labels_of self.now }
    {
        match self {
            Instr::BrTable { labels, .. } => labels.get().as_slice(),
            _ => &[],
        }
    }

    /// The types of a `select` that has them: no other instruction has any.
    pub fn types(&self) -> &[ValType]
        ensures { result.now ≡ types_of self.now }
    {
        match self {
            Instr::SelectTyped(types) => types.get().as_slice(),
            _ => &[],
        }
    }
}
