//! Addresses in a store (WebAssembly Core 2.0, section 4.2.4). Each counts the things of its kind from 0 in the order in which
//! they were made.

/// The address of a module.
#[derive(Clone, Copy, PartialEq, Eq, Debug)]
pub struct ModuleAddr(pub u64);

/// The address of an instance of a module.
#[derive(Clone, Copy, PartialEq, Eq, Debug)]
pub struct InstAddr(pub u64);

/// The address of a function.
#[derive(Clone, Copy, PartialEq, Eq, Debug)]
pub struct FuncAddr(pub u64);

/// The address of a table.
#[derive(Clone, Copy, PartialEq, Eq, Debug)]
pub struct TableAddr(pub u64);

/// The address of a memory.
#[derive(Clone, Copy, PartialEq, Eq, Debug)]
pub struct MemAddr(pub u64);

/// The address of a global.
#[derive(Clone, Copy, PartialEq, Eq, Debug)]
pub struct GlobalAddr(pub u64);

/// The address of an element segment.
#[derive(Clone, Copy, PartialEq, Eq, Debug)]
pub struct ElemAddr(pub u64);

/// The address of a data segment.
#[derive(Clone, Copy, PartialEq, Eq, Debug)]
pub struct DataAddr(pub u64);

/// The address of a value of the host. It is no address in a store: the embedder gives it its meaning.
#[derive(Clone, Copy, PartialEq, Eq, Debug)]
pub struct ExternAddr(pub u64);
