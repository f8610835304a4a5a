//! Types (WebAssembly Core 2.0, section 2.3).

ghost use Rattle.std.specs.Prelude.{◌≡◌, IfOk};

use sqlite_items::Items;
use std::alloc::{AllocError, Global};

/// The type of a value: an integer or a reference. The floating and vector types aren't in the profile.
#[derive(Clone, Copy, PartialEq, Eq, Debug)]
pub enum ValType {
    I32,
    I64,
    /// A reference to a function.
    FuncRef,
    /// A reference to a value of the host.
    ExternRef,
}

/// The type of a function: of its parameters and of its results.
#[derive(Debug, Drop)]
pub struct FuncType {
    pub params: Items<ValType>,
    pub results: Items<ValType>,
}

impl FuncType {
    /// The same type once more.
    pub fn copy(&self, alloc: Global) -> Result<FuncType, AllocError>
        ensures { IfOk result (λ copy. copy ≡ self.now) }
    {
        Ok(FuncType {
            params: Items::from_slice(alloc, self.params.as_slice())?,
            results: Items::from_slice(alloc, self.results.as_slice())?,
        })
    }
}

/// How large a table or a memory is at least, and at most where that is bounded: in entries or in pages of 65,536 bytes.
#[derive(Clone, Copy, PartialEq, Eq, Debug)]
pub struct Limit {
    pub min: u32,
    pub max: Option<u32>,
}

/// The type of a table. In a valid module `elem` is a reference type.
#[derive(Clone, Copy, PartialEq, Eq, Debug)]
pub struct TableType {
    pub elem: ValType,
    pub limit: Limit,
}

/// The type of a global, and whether it may be set.
#[derive(Clone, Copy, PartialEq, Eq, Debug)]
pub struct GlobalType {
    pub val: ValType,
    pub mutable: bool,
}
