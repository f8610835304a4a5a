//! Memories and data segments (WebAssembly Core 2.0, section 4.4.7).

ghost use Rattle.std.specs.Prelude.{◌≡◌, ◌<◌, ◌≤◌, ◌^◌, [], ◌∷◌, Some, length, slice_get, IfOk, OnOk, OnErr};
ghost use Rattle.raw_memory.specs.Bytes.{IsWidth};
ghost use Rattle.wasm_syntax.specs.NumberTypes.{value_type, bits_of, width_bits};
ghost use Rattle.wasm_store.specs.Store.{instance_at};
ghost use Rattle.wasm_store.specs.Whole.{IsLater};
ghost use Rattle.wasm_machine.specs.Performing.{place, bytes_of, extended, number_of, at_type};
ghost use Rattle.wasm_machine.specs.View.{values_of, operands_of};
ghost use Rattle.wasm_machine.specs.Control.{IsNumberFirst};
ghost use Rattle.wasm_machine.specs.Steps.{Performs};
ghost use Rattle.wasm_machine.specs.Growth.{growth_of_simple};
ghost use Rattle.wasm_machine.specs.Classes.{performed, Ends, Names, IsTops, IsThreeNumbers, IsLiveMemory, IsLiveData};

use crate::frame::WasmFrame;
use crate::perform::numbers::value_of;
use std::alloc::{AllocError, Global};
use wasm_num::unary;
use wasm_store::Store;
use wasm_syntax::{
    DataAddr, Extension, MemAddr, MemArg, Num, NumType, Simple, Trap, UnOp, Value, Width,
};

/// The place of an access, a sum of whole numbers.
#[inline]
fn place(k: u32, at: MemArg) -> u64
    ensures { result ≡ place k at }
{
    k as u64 + at.offset as u64
}

/// How many bytes an access has.
#[inline]
fn bytes_of(width: Width) -> u8
    ensures value { result ≡ bytes_of width }
    ensures width { IsWidth result }
    ensures bits { 256 ^ result ≡ 2 ^ width_bits width }
{
    match width {
        Width::Bits8 => 1,
        Width::Bits16 => 2,
        Width::Bits32 => 4,
        Width::Bits64 => 8,
    }
}

/// A number without its type.
#[inline]
fn number_of(number: Num) -> u64
    ensures { result ≡ number_of number }
{
    match number {
        Num::I32(number) => number as u64,
        Num::I64(number) => number,
    }
}

/// The number of a type whose value is this.
#[inline]
fn at_type(ty: NumType, number: u64) -> Num
    requires { number < 2 ^ bits_of ty }
    ensures { result ≡ at_type ty number }
{
    match ty {
        NumType::I32 => Num::I32(number as u32),
        NumType::I64 => Num::I64(number),
    }
}

/// The number of a type that has been read from so many bits.
#[inline]
fn extended(ty: NumType, width: Width, extension: Extension, number: u64) -> Num
    requires within { width_bits width ≤ bits_of ty }
    requires read { number < 2 ^ width_bits width }
    ensures { result ≡ extended ty width extension number }
{
    match extension {
        Extension::Unsigned => at_type(ty, number),
        Extension::Signed => signed(ty, width, number),
    }
}

/// The number of a type that has the signed reading of so many bits.
fn signed(ty: NumType, width: Width, number: u64) -> Num
    requires within { width_bits width ≤ bits_of ty }
    requires read { number < 2 ^ width_bits width }
    ensures { result ≡ extended ty width Extension.Signed number }
{
    let read = at_type(ty, number);
    match width {
        Width::Bits8 => unary(UnOp::Extend8S, read),
        Width::Bits16 => unary(UnOp::Extend16S, read),
        Width::Bits32 => match ty {
            NumType::I32 => read,
            NumType::I64 => unary(UnOp::Extend32S, read),
        },
        Width::Bits64 => read,
    }
}

impl WasmFrame {
    /// The one memory of the instance.
    #[inline]
    fn memory_addr(&self, store: &Store) -> MemAddr
        requires live { self.now.instance.0 < length store.now.instances }
        requires there { 0 < length (instance_at store.now self.now.instance).mems }
        ensures { slice_get (instance_at store.now self.now.instance).mems 0 ≡ Some result }
    {
        let mems = store.instance(self.instance()).mems.as_slice();
        mems[0]
    }

    #[inline]
    fn data_addr(&self, store: &Store, x: u32) -> DataAddr
        requires live { self.now.instance.0 < length store.now.instances }
        requires there { x < length (instance_at store.now self.now.instance).datas }
        ensures { slice_get (instance_at store.now self.now.instance).datas x ≡ Some result }
    {
        let datas = store.instance(self.instance()).datas.as_slice();
        datas[x as usize]
    }

    #[inline]
    pub(crate) fn memory_load(
        &mut self,
        store: &Store,
        ty: NumType,
        width: Width,
        extension: Extension,
        at: MemArg,
    ) -> Result<(), Trap>
        requires live { self.old.instance.0 < length store.now.instances }
        requires there { Names (instance_at store.now self.old.instance).mems 0 (IsLiveMemory store.now) }
        requires within { width_bits width ≤ bits_of ty }
        requires tops { IsNumberFirst (values_of self.old) }
        requires room { operands_of self.old ≤ self.old.room }
        ensures { Ends store.now (Simple.Load ty width extension at) self.old result store.now self.new }
    {
        let a = self.memory_addr(store);
        let k = self.pop_number();
        match store.load(a, place(k, at), bytes_of(width)) {
            Some(number) => {
                self.push(value_of(extended(ty, width, extension, number)));
                Ok(())
            }
            None => Err(Trap::MemoryRange),
        }
    }

    #[inline]
    pub(crate) fn memory_store(
        &mut self,
        store: &mut Store,
        ty: NumType,
        width: Width,
        at: MemArg,
    ) -> Result<(), Trap>
        requires live { self.old.instance.0 < length store.old.instances }
        requires there { Names (instance_at store.old self.old.instance).mems 0 (IsLiveMemory store.old) }
        requires tops { IsTops (value_type ty ∷ value_type NumType.I32 ∷ []) (values_of self.old) }
        ensures ends { Ends store.old (Simple.Store ty width at) self.old result store.new self.new }
        ensures later { IsLater store.old store.new }
    {
        let a = self.memory_addr(store);
        let number = self.pop_num(ty);
        let k = self.pop_number();
        if store.store(a, place(k, at), bytes_of(width), number_of(number)) {
            Ok(())
        } else {
            Err(Trap::MemoryRange)
        }
    }

    #[inline]
    pub(crate) fn memory_size(&mut self, store: &Store)
        requires live { self.old.instance.0 < length store.now.instances }
        requires there { Names (instance_at store.now self.old.instance).mems 0 (IsLiveMemory store.now) }
        requires room { operands_of self.old < self.old.room }
        ensures { Performs (performed store.now self.old Simple.MemorySize) store.now self.old self.new }
    {
        let a = self.memory_addr(store);
        self.push(Value::I32(store.memory_type(a).min));
    }

    /// The answer is the memory that has grown, or none where the instruction gives -1.
    pub(crate) fn memory_grow(
        &mut self,
        alloc: Global,
        store: &mut Store,
    ) -> Result<Option<MemAddr>, AllocError>
        requires live { self.old.instance.0 < length store.old.instances }
        requires there { Names (instance_at store.old self.old.instance).mems 0 (IsLiveMemory store.old) }
        requires tops { IsNumberFirst (values_of self.old) }
        requires room { operands_of self.old ≤ self.old.room }
        ensures ok { OnOk result (Performs (performed store.old self.old Simple.MemoryGrow) store.new self.old self.new) }
        ensures grew { IfOk result (λ o. o ≡ growth_of_simple store.old (instance_at store.old self.old.instance) Simple.MemoryGrow (values_of self.old)) }
        ensures later { IsLater store.old store.new }
        ensures refused { OnErr result (store.new ≡ store.old) }
        ensures frame_refused { OnErr result (self.new ≡ self.old) }
    {
        let a = self.memory_addr(store);
        let delta = self.pop_number();
        match store.grow_memory(alloc, a, delta) {
            Ok(Some(pages)) => {
                self.push(Value::I32(pages));
                Ok(Some(a))
            }
            Ok(None) => {
                self.push(Value::I32(u32::MAX));
                Ok(None)
            }
            Err(error) => {
                self.push(Value::I32(delta));
                Err(error)
            }
        }
    }

    pub(crate) fn memory_fill(&mut self, store: &mut Store) -> Result<(), Trap>
        requires live { self.old.instance.0 < length store.old.instances }
        requires there { Names (instance_at store.old self.old.instance).mems 0 (IsLiveMemory store.old) }
        requires tops { IsThreeNumbers (values_of self.old) }
        ensures ends { Ends store.old Simple.MemoryFill self.old result store.new self.new }
        ensures later { IsLater store.old store.new }
    {
        let a = self.memory_addr(store);
        let n = self.pop_number();
        let byte = self.pop_number();
        let at = self.pop_number();
        store.memory_fill(a, at, (byte % 256) as u8, n)
    }

    pub(crate) fn memory_copy(&mut self, store: &mut Store) -> Result<(), Trap>
        requires live { self.old.instance.0 < length store.old.instances }
        requires there { Names (instance_at store.old self.old.instance).mems 0 (IsLiveMemory store.old) }
        requires tops { IsThreeNumbers (values_of self.old) }
        ensures ends { Ends store.old Simple.MemoryCopy self.old result store.new self.new }
        ensures later { IsLater store.old store.new }
    {
        let a = self.memory_addr(store);
        let n = self.pop_number();
        let source = self.pop_number();
        let at = self.pop_number();
        store.memory_copy(a, at, source, n)
    }

    pub(crate) fn memory_init(&mut self, store: &mut Store, x: u32) -> Result<(), Trap>
        requires live { self.old.instance.0 < length store.old.instances }
        requires there { Names (instance_at store.old self.old.instance).mems 0 (IsLiveMemory store.old) }
        requires there_segment { Names (instance_at store.old self.old.instance).datas x (IsLiveData store.old) }
        requires tops { IsThreeNumbers (values_of self.old) }
        ensures ends { Ends store.old (Simple.MemoryInit x) self.old result store.new self.new }
        ensures later { IsLater store.old store.new }
    {
        let a = self.memory_addr(store);
        let d = self.data_addr(store, x);
        let n = self.pop_number();
        let source = self.pop_number();
        let at = self.pop_number();
        store.memory_init(a, d, at, source, n)
    }

    pub(crate) fn data_drop(&mut self, store: &mut Store, x: u32)
        requires live { self.old.instance.0 < length store.old.instances }
        requires there { Names (instance_at store.old self.old.instance).datas x (IsLiveData store.old) }
        ensures performs { Performs (performed store.old self.old (Simple.DataDrop x)) store.new self.old self.new }
        ensures later { IsLater store.old store.new }
    {
        let d = self.data_addr(store, x);
        store.data_drop(d);
    }
}
