//! Why an instruction stops its program.

/// The cause of a trap (WebAssembly Core 2.0, sections 4.2.2 and 4.4). A trap ends the running
/// computation and can't be handled inside WebAssembly.
#[derive(Clone, Copy, PartialEq, Eq, Debug)]
pub enum Trap {
    /// The instruction `unreachable` was reached.
    Unreachable,
    /// An integer division or remainder had the divisor 0.
    DivideByZero,
    /// A signed division had a quotient that its type can't hold: the least value by -1.
    Overflow,
    /// An access left the bounds of a memory or of a data segment.
    MemoryRange,
    /// An access left the bounds of a table or of an element segment.
    TableRange,
    /// An indirect call met a table entry that holds no function.
    NullEntry,
    /// An indirect call met a function of another type than the one it names.
    WrongType,
}
