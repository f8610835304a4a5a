//! Values.

use crate::addresses::{ExternAddr, FuncAddr};

/// A value (WebAssembly Core 2.0, section 4.2.1). Integers have no sign: an instruction that needs one reads them in two's
/// complement.
#[derive(Clone, Copy, PartialEq, Eq, Debug)]
pub enum Value {
    I32(u32),
    I64(u64),
    /// The null reference of type `funcref`.
    FuncNull,
    Func(FuncAddr),
    /// The null reference of type `externref`.
    ExternNull,
    Extern(ExternAddr),
}
