//! The caches and their calls.
ghost use Rattle.std.specs.Prelude.{◌≡◌, ◌++◌, ◌∷◌, [], ◌<◌, ◌↔◌, IsTrue, length, nat_eq, None, slice_index_or, IfOk, OnOk, OnErr};
ghost use Rattle.host_values.specs.declared.values.HostValue.TheVariants as values;
ghost use Rattle.std.specs.Map.{lookup};
ghost use Rattle.host_values.specs.Objects.{HostHeap};
ghost use Rattle.host_values.specs.Heaps.{next_object, with_object};
ghost use Rattle.iface_caches.specs.declared.external.ExternalKind.TheVariants as external;
ghost use Rattle.iface_caches.specs.Caches.{AreDistinct, cache_of, cached, extern_of, heap_with_object_of, kind_of, no_caches, object_of, with_cache, with_extern, with_object_of};
ghost use Rattle.iface_caches.specs.Agreement.{Agree, IsLater};
ghost use Rattle.iface_caches.specs.Conversions.{IsCached};

use crate::external::ExternalKind;
use crate::externs::Externs;
use host_values::{Callee, Heap, HostValue, Kind, ObjId};
use indexmap::IndexMap;
use std::alloc::{AllocError, Global};
use std::marker::Model;
use wasm_syntax::{ExternAddr, FuncAddr, GlobalAddr, MemAddr, TableAddr, Value};

/// The object of each address that has one, and the address of each value of the host that a module holds. It can't be cloned, and
/// nothing in it is collected.
#[derive(Drop)]
pub struct Caches {
    functions: IndexMap<u64, ObjId>,
    memories: IndexMap<u64, ObjId>,
    tables: IndexMap<u64, ObjId>,
    globals: IndexMap<u64, ObjId>,
    externs: Externs,
}

impl Model for Caches {
    ghost use Rattle.iface_caches.specs.Caches.{HostCaches};

    ghost Value = { HostCaches };

    ghost view = { λ c. record { functions = c.functions.entries; memories = c.memories.entries; tables = c.tables.entries; globals = c.globals.entries; externs = c.externs } };
}

/// An object's kind that says that it is of this address.
fn kind_of(kind: ExternalKind, a: u64) -> Kind
    ensures { result ≡ kind_of kind a }
{
    match kind {
        ExternalKind::Function => Kind::Function(Callee::Exported(FuncAddr(a))),
        ExternalKind::Memory => Kind::Memory(MemAddr(a)),
        ExternalKind::Table => Kind::Table(TableAddr(a)),
        ExternalKind::Global => Kind::Global(GlobalAddr(a)),
    }
}

/// Makes the object of an address that has none.
fn add_object(
    cache: &mut IndexMap<u64, ObjId>,
    alloc: Global,
    heap: &mut Heap,
    kind: ExternalKind,
    a: u64,
) -> Result<ObjId, AllocError>
    requires { lookup (nat_eq a) cache.old.entries ≡ None }
    ensures object { IfOk result (λ o. o ≡ next_object heap.old) }
    ensures ok { OnOk result (cache.new.entries ≡ cache.old.entries ++ (a, next_object heap.old) ∷ []) }
    ensures heap { OnOk result (heap.new ≡ with_object heap.old (kind_of kind a) []) }
    ensures err { OnErr result ((cache.new.entries ≡ cache.old.entries) × (heap.new ≡ heap.old)) }
{
    cache.reserve(1)?;
    let object = heap.add(alloc, kind_of(kind, a))?;
    match cache.insert(a, object) {
        Ok(_) => Ok(object),
        Err(_) => unreachable!(),
    }
}

impl Caches {
    /// Nothing cached. It takes no memory.
    pub fn new(alloc: Global) -> Caches
        ensures { result ≡ no_caches }
    {
        Caches {
            functions: IndexMap::new(alloc),
            memories: IndexMap::new(alloc),
            tables: IndexMap::new(alloc),
            globals: IndexMap::new(alloc),
            externs: Externs::new(alloc),
        }
    }

    /// What holds of every `Caches`: no two of the values of the host are strictly equal.
    pub fn whole(&self)
        ensures { AreDistinct self.now.externs }
    {
        self.externs.distinct();
    }

    // The object of an address, where it has one.
    fn cached(&self, kind: ExternalKind, a: u64) -> Option<ObjId>
        ensures { result ≡ cached self.now kind a }
    {
        let cache = match kind {
            ExternalKind::Function => &self.functions,
            ExternalKind::Memory => &self.memories,
            ExternalKind::Table => &self.tables,
            ExternalKind::Global => &self.globals,
        };
        cache.get(&a).copied()
    }

    // Makes the object of an address that has none.
    fn add(
        &mut self,
        alloc: Global,
        heap: &mut Heap,
        kind: ExternalKind,
        a: u64,
    ) -> Result<ObjId, AllocError>
        requires { cached self.old kind a ≡ None }
        ensures object { IfOk result (λ o. o ≡ next_object heap.old) }
        ensures ok { OnOk result (self.new ≡ with_cache kind (cache_of self.old kind ++ (a, next_object heap.old) ∷ []) self.old) }
        ensures heap { OnOk result (heap.new ≡ with_object heap.old (kind_of kind a) []) }
        ensures err { OnErr result ((self.new ≡ self.old) × (heap.new ≡ heap.old)) }
    {
        match kind {
            ExternalKind::Function => add_object(&mut self.functions, alloc, heap, kind, a),
            ExternalKind::Memory => add_object(&mut self.memories, alloc, heap, kind, a),
            ExternalKind::Table => add_object(&mut self.tables, alloc, heap, kind, a),
            ExternalKind::Global => add_object(&mut self.globals, alloc, heap, kind, a),
        }
    }

    // The one object of an address.
    fn object(
        &mut self,
        alloc: Global,
        heap: &mut Heap,
        kind: ExternalKind,
        a: u64,
    ) -> Result<ObjId, AllocError>
        ensures object { IfOk result (λ o. o ≡ object_of heap.old self.old kind a) }
        ensures ok { OnOk result (self.new ≡ with_object_of heap.old kind a self.old) }
        ensures heap { OnOk result (heap.new ≡ heap_with_object_of self.old kind a heap.old) }
        ensures err { OnErr result ((self.new ≡ self.old) × (heap.new ≡ heap.old)) }
        ensures agree { Agree heap.old self.old → Agree heap.new self.new }
        ensures later { IsLater self.old self.new }
    {
        match self.cached(kind, a) {
            Some(object) => Ok(object),
            None => self.add(alloc, heap, kind, a),
        }
    }

    /// The Exported Function of a function (WebAssembly JavaScript Interface, section 5.6). It is made where there is none yet.
    pub fn function_object(
        &mut self,
        alloc: Global,
        heap: &mut Heap,
        a: FuncAddr,
    ) -> Result<ObjId, AllocError>
        ensures object { IfOk result (λ o. o ≡ object_of heap.old self.old external.Function a.0) }
        ensures ok { OnOk result (self.new ≡ with_object_of heap.old external.Function a.0 self.old) }
        ensures heap { OnOk result (heap.new ≡ heap_with_object_of self.old external.Function a.0 heap.old) }
        ensures err { OnErr result ((self.new ≡ self.old) × (heap.new ≡ heap.old)) }
        ensures agree { Agree heap.old self.old → Agree heap.new self.new }
        ensures later { IsLater self.old self.new }
    {
        self.object(alloc, heap, ExternalKind::Function, a.0)
    }

    /// The Memory object of a memory (section 5.3). It is made where there is none yet.
    pub fn memory_object(
        &mut self,
        alloc: Global,
        heap: &mut Heap,
        a: MemAddr,
    ) -> Result<ObjId, AllocError>
        ensures object { IfOk result (λ o. o ≡ object_of heap.old self.old external.Memory a.0) }
        ensures ok { OnOk result (self.new ≡ with_object_of heap.old external.Memory a.0 self.old) }
        ensures heap { OnOk result (heap.new ≡ heap_with_object_of self.old external.Memory a.0 heap.old) }
        ensures err { OnErr result ((self.new ≡ self.old) × (heap.new ≡ heap.old)) }
        ensures agree { Agree heap.old self.old → Agree heap.new self.new }
        ensures later { IsLater self.old self.new }
    {
        self.object(alloc, heap, ExternalKind::Memory, a.0)
    }

    /// The Table object of a table (section 5.4). It is made where there is none yet.
    pub fn table_object(
        &mut self,
        alloc: Global,
        heap: &mut Heap,
        a: TableAddr,
    ) -> Result<ObjId, AllocError>
        ensures object { IfOk result (λ o. o ≡ object_of heap.old self.old external.Table a.0) }
        ensures ok { OnOk result (self.new ≡ with_object_of heap.old external.Table a.0 self.old) }
        ensures heap { OnOk result (heap.new ≡ heap_with_object_of self.old external.Table a.0 heap.old) }
        ensures err { OnErr result ((self.new ≡ self.old) × (heap.new ≡ heap.old)) }
        ensures agree { Agree heap.old self.old → Agree heap.new self.new }
        ensures later { IsLater self.old self.new }
    {
        self.object(alloc, heap, ExternalKind::Table, a.0)
    }

    /// The Global object of a global (section 5.5). It is made where there is none yet.
    pub fn global_object(
        &mut self,
        alloc: Global,
        heap: &mut Heap,
        a: GlobalAddr,
    ) -> Result<ObjId, AllocError>
        ensures object { IfOk result (λ o. o ≡ object_of heap.old self.old external.Global a.0) }
        ensures ok { OnOk result (self.new ≡ with_object_of heap.old external.Global a.0 self.old) }
        ensures heap { OnOk result (heap.new ≡ heap_with_object_of self.old external.Global a.0 heap.old) }
        ensures err { OnErr result ((self.new ≡ self.old) × (heap.new ≡ heap.old)) }
        ensures agree { Agree heap.old self.old → Agree heap.new self.new }
        ensures later { IsLater self.old self.new }
    {
        self.object(alloc, heap, ExternalKind::Global, a.0)
    }

    /// Whether a value is no reference to a value of the host, or one to a value that is here.
    pub fn has_value(&self, v: Value) -> bool
        ensures { IsTrue result ↔ IsCached self.now v }
    {
        match v {
            Value::Extern(a) => self.externs.has(a),
            _ => true,
        }
    }

    // The value of the host of an address, undefined where none has it.
    pub(crate) fn extern_value(&self, a: ExternAddr) -> Result<HostValue, AllocError>
        ensures { IfOk result (λ value. value ≡ slice_index_or self.now.externs a.0 values.Undefined) }
    {
        self.externs.value_or_undefined(a)
    }

    /// The address of a value of the host. Strictly equal values (ECMA-262, section 7.2.14) have one address.
    pub fn extern_addr(
        &mut self,
        _alloc: Global,
        value: HostValue,
    ) -> Result<ExternAddr, AllocError>
        ensures address { IfOk result (λ a. a ≡ extern_of self.old value) }
        ensures ok { OnOk result (self.new ≡ with_extern value self.old) }
        ensures err { OnErr result (self.new ≡ self.old) }
        ensures agree { (h : HostHeap) → Agree h self.old → Agree h self.new }
        ensures later { IsLater self.old self.new }
    {
        self.externs.address(value)
    }
}
