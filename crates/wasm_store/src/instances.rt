//! What a store holds (WebAssembly Core 2.0, section 4.2).

ghost use Rattle.std.specs.Prelude.{◌≡◌};
ghost use Rattle.wasm_store.specs.Store.{blank, type_of};

use crate::shared_type::SharedType;
use sqlite_items::Items;
use std::alloc::Global;
use wasm_syntax::{
    DataAddr, ElemAddr, FuncAddr, FuncType, GlobalAddr, GlobalType, InstAddr, MemAddr, ModuleAddr,
    TableAddr, Value,
};

/// A function (4.2.6). `callee` is a number by which the embedder knows what is called.
#[derive(Debug, Drop)]
pub enum FuncInst {
    /// The function of a module's own with this index, counted without the imported ones.
    Wasm {
        ty: SharedType,
        instance: InstAddr,
        index: u32,
    },
    /// A function of the host.
    Host {
        ty: SharedType,
        callee: u64,
    },
    /// A function of the host that may suspend its caller.
    Suspending {
        ty: SharedType,
        callee: u64,
    },
}

impl FuncInst {
    /// The type, lent.
    pub fn ty(&self) -> &FuncType
        ensures { result.now ≡ type_of self.now }
    {
        match self {
            FuncInst::Wasm { ty, .. } => ty.get(),
            FuncInst::Host { ty, .. } => ty.get(),
            FuncInst::Suspending { ty, .. } => ty.get(),
        }
    }
}

/// An instance of a module (4.2.5): for each index of the module the address of what it names, imports first.
#[derive(Debug, Drop)]
pub struct Instance {
    pub module: ModuleAddr,
    pub funcs: Items<FuncAddr>,
    pub tables: Items<TableAddr>,
    pub mems: Items<MemAddr>,
    pub globals: Items<GlobalAddr>,
    pub elems: Items<ElemAddr>,
    pub datas: Items<DataAddr>,
}

impl Instance {
    /// An instance without lists, which takes no memory.
    pub fn blank(alloc: Global, module: ModuleAddr) -> Instance
        ensures { result ≡ blank «module» }
    {
        Instance {
            module,
            funcs: Items::new(alloc),
            tables: Items::new(alloc),
            mems: Items::new(alloc),
            globals: Items::new(alloc),
            elems: Items::new(alloc),
            datas: Items::new(alloc),
        }
    }
}

/// A global (4.2.9).
#[derive(Clone, Copy, PartialEq, Eq, Debug)]
pub struct GlobalInst {
    pub ty: GlobalType,
    pub value: Value,
}
