//! The opcodes of instructions (WebAssembly Core 2.0, sections 5.4.1 to 5.4.8): two tables of rows, in the order of the opcodes. What
//! stands behind an opcode is told by its row, and an opcode by the place of its row.

ghost use Rattle.std.specs.Prelude.{◌≡◌, ◌≤◌, map};
ghost use Rattle.std.specs.List.{range_with_len};
ghost use Rattle.wasm_grammar.specs.Opcodes.{shape_of, bulk_shape};
ghost use Rattle.wasm_grammar.specs.Rows as says;

use wasm_syntax::{Instr, MemArg};

/// An instruction with no immediate.
#[derive(Clone, Copy)]
pub enum Plain {
    Unreachable,
    Nop,
    Return,
    Drop,
    Select,
    I32Eqz,
    I32Eq,
    I32Ne,
    I32LtS,
    I32LtU,
    I32GtS,
    I32GtU,
    I32LeS,
    I32LeU,
    I32GeS,
    I32GeU,
    I64Eqz,
    I64Eq,
    I64Ne,
    I64LtS,
    I64LtU,
    I64GtS,
    I64GtU,
    I64LeS,
    I64LeU,
    I64GeS,
    I64GeU,
    I32Clz,
    I32Ctz,
    I32Popcnt,
    I32Add,
    I32Sub,
    I32Mul,
    I32DivS,
    I32DivU,
    I32RemS,
    I32RemU,
    I32And,
    I32Or,
    I32Xor,
    I32Shl,
    I32ShrS,
    I32ShrU,
    I32Rotl,
    I32Rotr,
    I64Clz,
    I64Ctz,
    I64Popcnt,
    I64Add,
    I64Sub,
    I64Mul,
    I64DivS,
    I64DivU,
    I64RemS,
    I64RemU,
    I64And,
    I64Or,
    I64Xor,
    I64Shl,
    I64ShrS,
    I64ShrU,
    I64Rotl,
    I64Rotr,
    I32WrapI64,
    I64ExtendI32S,
    I64ExtendI32U,
    I32Extend8S,
    I32Extend16S,
    I64Extend8S,
    I64Extend16S,
    I64Extend32S,
    RefIsNull,
}

/// An instruction with an index.
#[derive(Clone, Copy)]
pub enum Index {
    Br,
    BrIf,
    Call,
    LocalGet,
    LocalSet,
    LocalTee,
    GlobalGet,
    GlobalSet,
    TableGet,
    TableSet,
    RefFunc,
    ElemDrop,
    TableGrow,
    TableSize,
    TableFill,
}

/// An instruction with two indices.
#[derive(Clone, Copy)]
pub enum Pair {
    CallIndirect,
    TableInit,
    TableCopy,
}

/// An instruction with the place of an access of a memory.
#[derive(Clone, Copy)]
pub enum Access {
    I32Load,
    I64Load,
    I32Load8S,
    I32Load8U,
    I32Load16S,
    I32Load16U,
    I64Load8S,
    I64Load8U,
    I64Load16S,
    I64Load16U,
    I64Load32S,
    I64Load32U,
    I32Store,
    I64Store,
    I32Store8,
    I32Store16,
    I64Store8,
    I64Store16,
    I64Store32,
}

/// An instruction with one byte 00.
#[derive(Clone, Copy)]
pub enum Zero {
    MemorySize,
    MemoryGrow,
    MemoryFill,
}

/// An instruction that begins a block.
#[derive(Clone, Copy)]
pub enum Opening {
    Block,
    Loop,
    If,
}

/// What an opcode is the opcode of.
#[derive(Clone, Copy)]
pub enum Row {
    /// Of no instruction.
    Unknown,
    Plain(Plain),
    Index(Index),
    Pair(Pair),
    Access(Access),
    Zero(Zero),
    Opening(Opening),
    Else,
    End,
    BrTable,
    SelectTyped,
    I32Const,
    I64Const,
    RefNull,
    MemoryInit,
    DataDrop,
    MemoryCopy,
    /// Of a floating instruction with so many bytes behind the opcode.
    Float(u8),
    /// Of an access of a memory that moves a floating number.
    FloatAccess,
}

/// The rows of the opcodes of one byte.
static ROWS: [Row; 256] = [
    // 00 to 0F
    Row::Plain(Plain::Unreachable),
    Row::Plain(Plain::Nop),
    Row::Opening(Opening::Block),
    Row::Opening(Opening::Loop),
    Row::Opening(Opening::If),
    Row::Else,
    Row::Unknown,
    Row::Unknown,
    Row::Unknown,
    Row::Unknown,
    Row::Unknown,
    Row::End,
    Row::Index(Index::Br),
    Row::Index(Index::BrIf),
    Row::BrTable,
    Row::Plain(Plain::Return),
    // 10 to 1F
    Row::Index(Index::Call),
    Row::Pair(Pair::CallIndirect),
    Row::Unknown,
    Row::Unknown,
    Row::Unknown,
    Row::Unknown,
    Row::Unknown,
    Row::Unknown,
    Row::Unknown,
    Row::Unknown,
    Row::Plain(Plain::Drop),
    Row::Plain(Plain::Select),
    Row::SelectTyped,
    Row::Unknown,
    Row::Unknown,
    Row::Unknown,
    // 20 to 2F
    Row::Index(Index::LocalGet),
    Row::Index(Index::LocalSet),
    Row::Index(Index::LocalTee),
    Row::Index(Index::GlobalGet),
    Row::Index(Index::GlobalSet),
    Row::Index(Index::TableGet),
    Row::Index(Index::TableSet),
    Row::Unknown,
    Row::Access(Access::I32Load),
    Row::Access(Access::I64Load),
    Row::FloatAccess,
    Row::FloatAccess,
    Row::Access(Access::I32Load8S),
    Row::Access(Access::I32Load8U),
    Row::Access(Access::I32Load16S),
    Row::Access(Access::I32Load16U),
    // 30 to 3F
    Row::Access(Access::I64Load8S),
    Row::Access(Access::I64Load8U),
    Row::Access(Access::I64Load16S),
    Row::Access(Access::I64Load16U),
    Row::Access(Access::I64Load32S),
    Row::Access(Access::I64Load32U),
    Row::Access(Access::I32Store),
    Row::Access(Access::I64Store),
    Row::FloatAccess,
    Row::FloatAccess,
    Row::Access(Access::I32Store8),
    Row::Access(Access::I32Store16),
    Row::Access(Access::I64Store8),
    Row::Access(Access::I64Store16),
    Row::Access(Access::I64Store32),
    Row::Zero(Zero::MemorySize),
    // 40 to 4F
    Row::Zero(Zero::MemoryGrow),
    Row::I32Const,
    Row::I64Const,
    Row::Float(4),
    Row::Float(8),
    Row::Plain(Plain::I32Eqz),
    Row::Plain(Plain::I32Eq),
    Row::Plain(Plain::I32Ne),
    Row::Plain(Plain::I32LtS),
    Row::Plain(Plain::I32LtU),
    Row::Plain(Plain::I32GtS),
    Row::Plain(Plain::I32GtU),
    Row::Plain(Plain::I32LeS),
    Row::Plain(Plain::I32LeU),
    Row::Plain(Plain::I32GeS),
    Row::Plain(Plain::I32GeU),
    // 50 to 5F
    Row::Plain(Plain::I64Eqz),
    Row::Plain(Plain::I64Eq),
    Row::Plain(Plain::I64Ne),
    Row::Plain(Plain::I64LtS),
    Row::Plain(Plain::I64LtU),
    Row::Plain(Plain::I64GtS),
    Row::Plain(Plain::I64GtU),
    Row::Plain(Plain::I64LeS),
    Row::Plain(Plain::I64LeU),
    Row::Plain(Plain::I64GeS),
    Row::Plain(Plain::I64GeU),
    Row::Float(0),
    Row::Float(0),
    Row::Float(0),
    Row::Float(0),
    Row::Float(0),
    // 60 to 6F
    Row::Float(0),
    Row::Float(0),
    Row::Float(0),
    Row::Float(0),
    Row::Float(0),
    Row::Float(0),
    Row::Float(0),
    Row::Plain(Plain::I32Clz),
    Row::Plain(Plain::I32Ctz),
    Row::Plain(Plain::I32Popcnt),
    Row::Plain(Plain::I32Add),
    Row::Plain(Plain::I32Sub),
    Row::Plain(Plain::I32Mul),
    Row::Plain(Plain::I32DivS),
    Row::Plain(Plain::I32DivU),
    Row::Plain(Plain::I32RemS),
    // 70 to 7F
    Row::Plain(Plain::I32RemU),
    Row::Plain(Plain::I32And),
    Row::Plain(Plain::I32Or),
    Row::Plain(Plain::I32Xor),
    Row::Plain(Plain::I32Shl),
    Row::Plain(Plain::I32ShrS),
    Row::Plain(Plain::I32ShrU),
    Row::Plain(Plain::I32Rotl),
    Row::Plain(Plain::I32Rotr),
    Row::Plain(Plain::I64Clz),
    Row::Plain(Plain::I64Ctz),
    Row::Plain(Plain::I64Popcnt),
    Row::Plain(Plain::I64Add),
    Row::Plain(Plain::I64Sub),
    Row::Plain(Plain::I64Mul),
    Row::Plain(Plain::I64DivS),
    // 80 to 8F
    Row::Plain(Plain::I64DivU),
    Row::Plain(Plain::I64RemS),
    Row::Plain(Plain::I64RemU),
    Row::Plain(Plain::I64And),
    Row::Plain(Plain::I64Or),
    Row::Plain(Plain::I64Xor),
    Row::Plain(Plain::I64Shl),
    Row::Plain(Plain::I64ShrS),
    Row::Plain(Plain::I64ShrU),
    Row::Plain(Plain::I64Rotl),
    Row::Plain(Plain::I64Rotr),
    Row::Float(0),
    Row::Float(0),
    Row::Float(0),
    Row::Float(0),
    Row::Float(0),
    // 90 to 9F
    Row::Float(0),
    Row::Float(0),
    Row::Float(0),
    Row::Float(0),
    Row::Float(0),
    Row::Float(0),
    Row::Float(0),
    Row::Float(0),
    Row::Float(0),
    Row::Float(0),
    Row::Float(0),
    Row::Float(0),
    Row::Float(0),
    Row::Float(0),
    Row::Float(0),
    Row::Float(0),
    // A0 to AF
    Row::Float(0),
    Row::Float(0),
    Row::Float(0),
    Row::Float(0),
    Row::Float(0),
    Row::Float(0),
    Row::Float(0),
    Row::Plain(Plain::I32WrapI64),
    Row::Float(0),
    Row::Float(0),
    Row::Float(0),
    Row::Float(0),
    Row::Plain(Plain::I64ExtendI32S),
    Row::Plain(Plain::I64ExtendI32U),
    Row::Float(0),
    Row::Float(0),
    // B0 to BF
    Row::Float(0),
    Row::Float(0),
    Row::Float(0),
    Row::Float(0),
    Row::Float(0),
    Row::Float(0),
    Row::Float(0),
    Row::Float(0),
    Row::Float(0),
    Row::Float(0),
    Row::Float(0),
    Row::Float(0),
    Row::Float(0),
    Row::Float(0),
    Row::Float(0),
    Row::Float(0),
    // C0 to CF
    Row::Plain(Plain::I32Extend8S),
    Row::Plain(Plain::I32Extend16S),
    Row::Plain(Plain::I64Extend8S),
    Row::Plain(Plain::I64Extend16S),
    Row::Plain(Plain::I64Extend32S),
    Row::Unknown,
    Row::Unknown,
    Row::Unknown,
    Row::Unknown,
    Row::Unknown,
    Row::Unknown,
    Row::Unknown,
    Row::Unknown,
    Row::Unknown,
    Row::Unknown,
    Row::Unknown,
    // D0 to DF
    Row::RefNull,
    Row::Plain(Plain::RefIsNull),
    Row::Index(Index::RefFunc),
    Row::Unknown,
    Row::Unknown,
    Row::Unknown,
    Row::Unknown,
    Row::Unknown,
    Row::Unknown,
    Row::Unknown,
    Row::Unknown,
    Row::Unknown,
    Row::Unknown,
    Row::Unknown,
    Row::Unknown,
    Row::Unknown,
    // E0 to EF
    Row::Unknown,
    Row::Unknown,
    Row::Unknown,
    Row::Unknown,
    Row::Unknown,
    Row::Unknown,
    Row::Unknown,
    Row::Unknown,
    Row::Unknown,
    Row::Unknown,
    Row::Unknown,
    Row::Unknown,
    Row::Unknown,
    Row::Unknown,
    Row::Unknown,
    Row::Unknown,
    // F0 to FF
    Row::Unknown,
    Row::Unknown,
    Row::Unknown,
    Row::Unknown,
    Row::Unknown,
    Row::Unknown,
    Row::Unknown,
    Row::Unknown,
    Row::Unknown,
    Row::Unknown,
    Row::Unknown,
    Row::Unknown,
    Row::Unknown,
    Row::Unknown,
    Row::Unknown,
    Row::Unknown,
];

/// The rows of the numbers behind FC, from 8 on.
static BULK_ROWS: [Row; 10] = [
    Row::MemoryInit,
    Row::DataDrop,
    Row::MemoryCopy,
    Row::Zero(Zero::MemoryFill),
    Row::Pair(Pair::TableInit),
    Row::Index(Index::ElemDrop),
    Row::Pair(Pair::TableCopy),
    Row::Index(Index::TableGrow),
    Row::Index(Index::TableSize),
    Row::Index(Index::TableFill),
];

/// The rows of the opcodes of one byte, each at its opcode.
fn rows() -> &'static [Row; 256]
    ensures { map says.shape result.now ≡ map shape_of (range_with_len 0 256) }
{
    &ROWS
}

/// The rows of the numbers behind FC, from 8 on.
fn bulk_rows() -> &'static [Row; 10]
    ensures { map says.shape result.now ≡ map bulk_shape (range_with_len 8 10) }
{
    &BULK_ROWS
}

/// The row of an opcode of one byte.
pub fn row_of(op: u8) -> Row
    ensures { says.shape result ≡ shape_of op }
{
    rows()[op as usize]
}

/// The row of a number behind FC, which is 8 or more.
pub fn bulk_row_of(number: u32) -> Row
    requires { 8 ≤ number }
    ensures { says.shape result ≡ bulk_shape number }
{
    let rows = bulk_rows();
    let place = (number - 8) as usize;
    if place < rows.len() {
        return rows[place];
    }
    Row::Unknown
}

/// The instruction that a row names, with no immediate.
pub fn plain_instr(plain: Plain) -> Instr
    ensures { result ≡ says.plain_instr plain }
{
    match plain {
        Plain::Unreachable => Instr::Unreachable,
        Plain::Nop => Instr::Nop,
        Plain::Return => Instr::Return,
        Plain::Drop => Instr::Drop,
        Plain::Select => Instr::Select,
        Plain::I32Eqz => Instr::I32Eqz,
        Plain::I32Eq => Instr::I32Eq,
        Plain::I32Ne => Instr::I32Ne,
        Plain::I32LtS => Instr::I32LtS,
        Plain::I32LtU => Instr::I32LtU,
        Plain::I32GtS => Instr::I32GtS,
        Plain::I32GtU => Instr::I32GtU,
        Plain::I32LeS => Instr::I32LeS,
        Plain::I32LeU => Instr::I32LeU,
        Plain::I32GeS => Instr::I32GeS,
        Plain::I32GeU => Instr::I32GeU,
        Plain::I64Eqz => Instr::I64Eqz,
        Plain::I64Eq => Instr::I64Eq,
        Plain::I64Ne => Instr::I64Ne,
        Plain::I64LtS => Instr::I64LtS,
        Plain::I64LtU => Instr::I64LtU,
        Plain::I64GtS => Instr::I64GtS,
        Plain::I64GtU => Instr::I64GtU,
        Plain::I64LeS => Instr::I64LeS,
        Plain::I64LeU => Instr::I64LeU,
        Plain::I64GeS => Instr::I64GeS,
        Plain::I64GeU => Instr::I64GeU,
        Plain::I32Clz => Instr::I32Clz,
        Plain::I32Ctz => Instr::I32Ctz,
        Plain::I32Popcnt => Instr::I32Popcnt,
        Plain::I32Add => Instr::I32Add,
        Plain::I32Sub => Instr::I32Sub,
        Plain::I32Mul => Instr::I32Mul,
        Plain::I32DivS => Instr::I32DivS,
        Plain::I32DivU => Instr::I32DivU,
        Plain::I32RemS => Instr::I32RemS,
        Plain::I32RemU => Instr::I32RemU,
        Plain::I32And => Instr::I32And,
        Plain::I32Or => Instr::I32Or,
        Plain::I32Xor => Instr::I32Xor,
        Plain::I32Shl => Instr::I32Shl,
        Plain::I32ShrS => Instr::I32ShrS,
        Plain::I32ShrU => Instr::I32ShrU,
        Plain::I32Rotl => Instr::I32Rotl,
        Plain::I32Rotr => Instr::I32Rotr,
        Plain::I64Clz => Instr::I64Clz,
        Plain::I64Ctz => Instr::I64Ctz,
        Plain::I64Popcnt => Instr::I64Popcnt,
        Plain::I64Add => Instr::I64Add,
        Plain::I64Sub => Instr::I64Sub,
        Plain::I64Mul => Instr::I64Mul,
        Plain::I64DivS => Instr::I64DivS,
        Plain::I64DivU => Instr::I64DivU,
        Plain::I64RemS => Instr::I64RemS,
        Plain::I64RemU => Instr::I64RemU,
        Plain::I64And => Instr::I64And,
        Plain::I64Or => Instr::I64Or,
        Plain::I64Xor => Instr::I64Xor,
        Plain::I64Shl => Instr::I64Shl,
        Plain::I64ShrS => Instr::I64ShrS,
        Plain::I64ShrU => Instr::I64ShrU,
        Plain::I64Rotl => Instr::I64Rotl,
        Plain::I64Rotr => Instr::I64Rotr,
        Plain::I32WrapI64 => Instr::I32WrapI64,
        Plain::I64ExtendI32S => Instr::I64ExtendI32S,
        Plain::I64ExtendI32U => Instr::I64ExtendI32U,
        Plain::I32Extend8S => Instr::I32Extend8S,
        Plain::I32Extend16S => Instr::I32Extend16S,
        Plain::I64Extend8S => Instr::I64Extend8S,
        Plain::I64Extend16S => Instr::I64Extend16S,
        Plain::I64Extend32S => Instr::I64Extend32S,
        Plain::RefIsNull => Instr::RefIsNull,
    }
}

/// The instruction that a row names, with its index.
pub fn index_instr(what: Index, index: u32) -> Instr
    ensures { result ≡ says.index_instr what index }
{
    match what {
        Index::Br => Instr::Br(index),
        Index::BrIf => Instr::BrIf(index),
        Index::Call => Instr::Call(index),
        Index::LocalGet => Instr::LocalGet(index),
        Index::LocalSet => Instr::LocalSet(index),
        Index::LocalTee => Instr::LocalTee(index),
        Index::GlobalGet => Instr::GlobalGet(index),
        Index::GlobalSet => Instr::GlobalSet(index),
        Index::TableGet => Instr::TableGet(index),
        Index::TableSet => Instr::TableSet(index),
        Index::RefFunc => Instr::RefFunc(index),
        Index::ElemDrop => Instr::ElemDrop(index),
        Index::TableGrow => Instr::TableGrow(index),
        Index::TableSize => Instr::TableSize(index),
        Index::TableFill => Instr::TableFill(index),
    }
}

/// The instruction that a row names, with its indices in the order of their spellings.
pub fn pair_instr(what: Pair, first: u32, second: u32) -> Instr
    ensures { result ≡ says.pair_instr what first second }
{
    match what {
        Pair::CallIndirect => Instr::CallIndirect {
            ty: first,
            table: second,
        },
        Pair::TableInit => Instr::TableInit {
            elem: first,
            table: second,
        },
        Pair::TableCopy => Instr::TableCopy {
            to: first,
            from: second,
        },
    }
}

/// The instruction that a row names, with the place of its access.
pub fn access_instr(what: Access, arg: MemArg) -> Instr
    ensures { result ≡ says.access_instr what arg }
{
    match what {
        Access::I32Load => Instr::I32Load(arg),
        Access::I64Load => Instr::I64Load(arg),
        Access::I32Load8S => Instr::I32Load8S(arg),
        Access::I32Load8U => Instr::I32Load8U(arg),
        Access::I32Load16S => Instr::I32Load16S(arg),
        Access::I32Load16U => Instr::I32Load16U(arg),
        Access::I64Load8S => Instr::I64Load8S(arg),
        Access::I64Load8U => Instr::I64Load8U(arg),
        Access::I64Load16S => Instr::I64Load16S(arg),
        Access::I64Load16U => Instr::I64Load16U(arg),
        Access::I64Load32S => Instr::I64Load32S(arg),
        Access::I64Load32U => Instr::I64Load32U(arg),
        Access::I32Store => Instr::I32Store(arg),
        Access::I64Store => Instr::I64Store(arg),
        Access::I32Store8 => Instr::I32Store8(arg),
        Access::I32Store16 => Instr::I32Store16(arg),
        Access::I64Store8 => Instr::I64Store8(arg),
        Access::I64Store16 => Instr::I64Store16(arg),
        Access::I64Store32 => Instr::I64Store32(arg),
    }
}

/// The instruction that a row names, behind whose opcode a byte 00 stands.
pub fn zero_instr(zero: Zero) -> Instr
    ensures { result ≡ says.zero_instr zero }
{
    match zero {
        Zero::MemorySize => Instr::MemorySize,
        Zero::MemoryGrow => Instr::MemoryGrow,
        Zero::MemoryFill => Instr::MemoryFill,
    }
}
