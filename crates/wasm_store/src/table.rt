//! A table and what is done with its entries.

ghost use Rattle.std.specs.Prelude.{◌≡◌};

use std::alloc::{AllocError, Global};
use std::marker::Model;
use wasm_syntax::{Limit, TableType, ValType, Value};

/// No table has more entries.
pub const MOST_ENTRIES: u32 = 1_000_000;

/// A table, which contracts see as its element type, its entries and its greatest size.
#[derive(Drop)]
pub struct Table {
    elem: ValType,
    entries: Vec<Value>,
    max: Option<u32>,
}

impl Model for Table {
    ghost use Rattle.std.specs.Prelude.{◌≤◌, length};
    ghost use Rattle.wasm_store.specs.Store.{TableInst, most_entries};

    ghost Value = { TableInst };

    ghost view = { λ t. record { elem = t.elem; entries = t.entries.items; max = t.max } };

    ghost invariant = { λ t. length t.entries.items ≤ most_entries };
}

impl Table {
    ghost use Rattle.std.specs.Prelude.{◌≡◌, ◌+◌, ◌<◌, ◌≤◌, ◌↔◌, length, replicate, slice_get, slice_set, option_map, unwrap_or, Some, None, IfOk, OnOk, OnErr, IfSome, IsTrue};
    ghost use Rattle.std.specs.Bool.{OnTrue, OnFalse};
    ghost use Rattle.wasm_store.specs.Store.{no_table, new_table, table_type_of, with_entries, grown, run, replaced, most_entries};
    ghost use Rattle.wasm_store.specs.Growth.{MayGrow, Grows};

    /// A table of its type's least size.
    pub fn new(alloc: Global, ty: TableType, init: Value) -> Result<Table, AllocError>
        requires { ty.limit.min ≤ most_entries }
        ensures { IfOk result (λ t. t ≡ new_table ty init) }
    {
        let mut entries = Vec::new(alloc);
        entries.resize(ty.limit.min as usize, init)?;
        Ok(Table {
            elem: ty.elem,
            entries,
            max: ty.limit.max,
        })
    }

    /// A table without entries, which takes no memory.
    pub fn empty(alloc: Global) -> Table
        ensures { result ≡ no_table }
    {
        Table {
            elem: ValType::FuncRef,
            entries: Vec::new(alloc),
            max: None,
        }
    }

    /// Its type, with the size that it has.
    pub fn ty(&self) -> TableType
        ensures { result ≡ table_type_of self.now }
    {
        TableType {
            elem: self.elem,
            limit: Limit {
                min: self.entries.len() as u32,
                max: self.max,
            },
        }
    }

    /// The entries, lent.
    pub fn entries(&self) -> &[Value]
        ensures { result.now ≡ self.now.entries }
    {
        self.entries.as_slice()
    }

    /// The entry at a place.
    #[inline]
    pub fn get(&self, i: u32) -> Option<Value>
        ensures { result ≡ slice_get self.now.entries i }
    {
        self.entries.get(i as usize).copied()
    }

    /// Writes the entry at a place.
    #[inline]
    pub fn set(&mut self, i: u32, v: Value) -> bool
        ensures within { IsTrue result ↔ (i < length self.old.entries) }
        ensures written { OnTrue result (self.new ≡ with_entries (slice_set self.old.entries i v) self.old) }
        ensures refused { OnFalse result (self.new ≡ self.old) }
    {
        if i as usize >= self.entries.len() {
            return false;
        }
        self.entries[i as usize] = v;
        true
    }

    /// Whether it may have `delta` entries more.
    fn may_grow(&self, delta: u32) -> bool
        ensures { IsTrue result ↔ MayGrow self.now delta }
    {
        let size = self.entries.len() as u64 + delta as u64;
        size <= self.max.unwrap_or(MOST_ENTRIES) as u64 && size <= MOST_ENTRIES as u64
    }

    /// `delta` entries more, and the size that it had.
    pub fn grow(&mut self, delta: u32, init: Value) -> Result<Option<u32>, AllocError>
        ensures grown { IfOk result (Grows delta init self.old self.new) }
        ensures refused { OnErr result (self.new ≡ self.old) }
    {
        if !self.may_grow(delta) {
            return Ok(None);
        }
        let size = self.entries.len();
        self.entries.resize(size + delta as usize, init)?;
        Ok(Some(size as u32))
    }

    /// Whether the `n` entries from `at` on are all there.
    #[inline]
    fn has(&self, at: u32, n: u32) -> bool
        ensures { IsTrue result ↔ (at + n ≤ length self.now.entries) }
    {
        at as u64 + n as u64 <= self.entries.len() as u64
    }

    /// Writes `v` to the `n` entries from `at` on.
    pub fn fill(&mut self, at: u32, v: Value, n: u32) -> bool
        ensures within { IsTrue result ↔ (at + n ≤ length self.old.entries) }
        ensures written { OnTrue result (self.new ≡ replaced at n (replicate n v) self.old) }
        ensures refused { OnFalse result (self.new ≡ self.old) }
    {
        if !self.has(at, n) {
            return false;
        }
        set(&mut self.entries, at as usize, n as usize, v);
        true
    }

    /// Copies the `n` entries from `from` on to `to`, as they were before. The two ranges may overlap.
    pub fn copy_within(&mut self, to: u32, from: u32, n: u32) -> bool
        ensures within { IsTrue result ↔ ((to + n ≤ length self.old.entries) × (from + n ≤ length self.old.entries)) }
        ensures written { OnTrue result (self.new ≡ replaced to n (run self.old.entries from n) self.old) }
        ensures refused { OnFalse result (self.new ≡ self.old) }
    {
        if !self.has(to, n) || !self.has(from, n) {
            return false;
        }
        shift(&mut self.entries, to as usize, from as usize, n as usize);
        true
    }

    /// Writes the `n` items from `from` on to the entries from `to` on.
    pub fn write(&mut self, to: u32, items: &[Value], from: u32, n: u32) -> bool
        ensures within { IsTrue result ↔ ((to + n ≤ length self.old.entries) × (from + n ≤ length items.now)) }
        ensures written { OnTrue result (self.new ≡ replaced to n (run items.now from n) self.old) }
        ensures refused { OnFalse result (self.new ≡ self.old) }
    {
        if !self.has(to, n) || from as u64 + n as u64 > items.len() as u64 {
            return false;
        }
        let (to, from, n) = (to as usize, from as usize, n as usize);
        put(&mut self.entries, to, &items[from..from + n]);
        true
    }
}

ghost use Rattle.std.specs.Prelude.{◌+◌, ◌≤◌, ◌++◌, length, take, drop, replicate};
ghost use Rattle.wasm_store.specs.Store.{run};

fn set(entries: &mut [Value], at: usize, n: usize, v: Value)
    requires { at + n ≤ length entries.old }
    ensures { entries.new ≡ take at entries.old ++ replicate n v ++ drop (at + n) entries.old }
{
    entries[at..at + n].fill(v);
}

fn shift(entries: &mut [Value], to: usize, from: usize, n: usize)
    requires { (to + n ≤ length entries.old) × (from + n ≤ length entries.old) }
    ensures { entries.new ≡ take to entries.old ++ run entries.old from n ++ drop (to + n) entries.old }
{
    entries.copy_within(from..from + n, to);
}

fn put(entries: &mut [Value], to: usize, items: &[Value])
    requires { to + length items.now ≤ length entries.old }
    ensures { entries.new ≡ take to entries.old ++ items.now ++ drop (to + length items.now) entries.old }
{
    entries[to..to + items.len()].copy_from_slice(items);
}

// An entry's room.
const _: () = prove!(std::mem::size_of::<Value>() <= 16);
