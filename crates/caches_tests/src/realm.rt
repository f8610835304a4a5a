//! A heap with its caches, which agree.
ghost use Rattle.std.specs.Prelude.{◌≡◌, false};
ghost use Rattle.iface_caches.specs.Whole.{is_cached_kind};

use crate::samples::{Sample, is_sample};
use host_values::{Heap, HostValue, Kind, ObjId};
use iface_caches::{Caches, Conversion, ExternalKind, laws};
use std::alloc::{AllocError, Global};
use std::marker::Model;
use wasm_syntax::{FuncAddr, GlobalAddr, MemAddr, TableAddr, ValType, Value};

#[derive(Drop)]
pub(crate) struct Realm {
    heap: Heap,
    caches: Caches,
}

impl Model for Realm {
    ghost use Rattle.host_values.specs.Objects.{HostHeap};
    ghost use Rattle.iface_caches.specs.Caches.{HostCaches};
    ghost use Rattle.iface_caches.specs.Agreement.{Agree};

    ghost Value = { HostHeap × HostCaches };

    ghost view = { λ r. (r.heap, r.caches) };

    ghost invariant = { λ r. Agree r.heap r.caches };
}

impl Realm {
    /// A heap with `print` alone, and nothing cached.
    pub(crate) fn new(alloc: Global) -> Result<Realm, AllocError> {
        laws::wholeness();
        let heap = Heap::new(alloc, 0)?;
        let caches = Caches::new(alloc);
        Ok(Realm { heap, caches })
    }

    /// Makes an object that is of no address.
    pub(crate) fn add(&mut self, alloc: Global, kind: Kind) -> Result<ObjId, AllocError>
        requires { is_cached_kind kind ≡ false }
    {
        laws::changes();
        self.heap.add(alloc, kind)
    }

    /// The object of an address, which is made where there is none.
    pub(crate) fn make(
        &mut self,
        alloc: Global,
        kind: ExternalKind,
        a: u64,
    ) -> Result<ObjId, AllocError> {
        let heap = &mut self.heap;
        match kind {
            ExternalKind::Function => self.caches.function_object(alloc, heap, FuncAddr(a)),
            ExternalKind::Memory => self.caches.memory_object(alloc, heap, MemAddr(a)),
            ExternalKind::Table => self.caches.table_object(alloc, heap, TableAddr(a)),
            ExternalKind::Global => self.caches.global_object(alloc, heap, GlobalAddr(a)),
        }
    }

    /// Whether the object of an address has this number.
    pub(crate) fn is_object(
        &mut self,
        alloc: Global,
        kind: ExternalKind,
        a: u64,
        number: u64,
    ) -> bool {
        match self.make(alloc, kind, a) {
            Ok(object) => object.0 == number,
            Err(_) => false,
        }
    }

    /// Whether an object is of this kind.
    pub(crate) fn is(&self, object: ObjId, kind: Kind) -> bool {
        self.heap.has_object(object) && *self.heap.kind(object) == kind
    }

    /// Whether a value of the host has this address.
    pub(crate) fn is_extern(&mut self, alloc: Global, value: HostValue, address: u64) -> bool {
        match self.caches.extern_addr(alloc, value) {
            Ok(a) => a.0 == address,
            Err(_) => false,
        }
    }

    /// Whether a reference has a value here.
    pub(crate) fn has_value(&self, v: Value) -> bool {
        self.caches.has_value(v)
    }

    /// Whether a value of a module is shown as a sample.
    pub(crate) fn shows(&mut self, alloc: Global, v: Value, sample: Sample) -> bool {
        if !self.caches.has_value(v) {
            return false;
        }
        match self.caches.to_host(alloc, &mut self.heap, v) {
            Ok(value) => is_sample(&value, sample),
            Err(_) => false,
        }
    }

    /// The value of a module; none where the object isn't there.
    pub(crate) fn to_wasm(
        &mut self,
        alloc: Global,
        v: &HostValue,
        ty: ValType,
    ) -> Option<Result<Value, Conversion>> {
        if !self.heap.has_value(v) {
            return None;
        }
        Some(self.caches.to_wasm(alloc, &self.heap, v, ty))
    }
}
