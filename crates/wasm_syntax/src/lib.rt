//! Plain data of WebAssembly that several layers speak of, after WebAssembly Core 2.0: types, instructions, modules, values and
//! traps. Nothing here is checked: a module may be any data of its type.
#![tactic(auto)]

mod addresses;
mod instructions;
mod module;
mod name;
mod numbers;
mod sorts;
mod trap;
mod types;
mod value;
mod value_types;

pub use addresses::{
    DataAddr, ElemAddr, ExternAddr, FuncAddr, GlobalAddr, InstAddr, MemAddr, ModuleAddr, TableAddr,
};
pub use instructions::{BlockId, BlockType, IfParts, Instr, MemArg};
pub use module::{
    Data, Elem, Export, ExportDesc, Func, GlobalDef, Import, ImportDesc, Mode, Module,
};
pub use name::Name;
pub use numbers::{BinOp, CmpOp, ConvOp, Extension, Num, NumType, UnOp, Width};
pub use sorts::{Nesting, Simple, Sort};
pub use trap::Trap;
pub use types::{FuncType, GlobalType, Limit, TableType, ValType};
pub use value::Value;
pub use value_types::BlockSignature;
