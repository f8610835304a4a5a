//! Simple instructions (WebAssembly Core 2.0, sections 4.4.1 to 4.4.7), one function for each class.

ghost use Rattle.std.specs.Prelude.{◌≡◌, ◌≢◌, IfOk, OnErr};
ghost use Rattle.wasm_machine.specs.Classes.{CanPerform, Ends, IsKept};

use crate::frame::WasmFrame;
use std::alloc::{AllocError, Global};
use wasm_store::Store;
use wasm_syntax::{Simple, Trap};

mod globals;
mod memories;
mod numbers;
mod operands;
mod steps;
mod tables;
mod variables;

impl WasmFrame {
    /// A simple instruction other than `memory.grow`, or the trap in which it ends. Only `table.grow` takes memory.
    #[inline]
    pub(crate) fn simple(
        &mut self,
        alloc: Global,
        store: &mut Store,
        instr: Simple,
    ) -> Result<Result<(), Trap>, AllocError>
        requires can { CanPerform store.old instr self.old }
        requires other { instr ≢ Simple.MemoryGrow }
        ensures ends { IfOk result (λ r. Ends store.old instr self.old r store.new self.new) }
        ensures kept { IsKept store.old store.new }
        ensures refused { OnErr result (store.new ≡ store.old) }
        ensures frame_refused { OnErr result (self.new ≡ self.old) }
    {
        match instr {
            Simple::Nop => Ok(Ok(())),
            Simple::Const(number) => {
                self.constant(number);
                Ok(Ok(()))
            }
            Simple::Unary(ty, op) => {
                self.unary(ty, op);
                Ok(Ok(()))
            }
            Simple::Binary(ty, op) => Ok(self.binary(ty, op)),
            Simple::Test(ty) => {
                self.test(ty);
                Ok(Ok(()))
            }
            Simple::Compare(ty, op) => {
                self.compare(ty, op);
                Ok(Ok(()))
            }
            Simple::Convert(op) => {
                self.convert(op);
                Ok(Ok(()))
            }
            Simple::LocalGet(x) => {
                self.local_get(x);
                Ok(Ok(()))
            }
            Simple::LocalSet(x) => {
                self.local_set(x);
                Ok(Ok(()))
            }
            Simple::LocalTee(x) => {
                self.local_tee(x);
                Ok(Ok(()))
            }
            Simple::GlobalGet(x) => {
                self.global_get(store, x);
                Ok(Ok(()))
            }
            Simple::GlobalSet(x) => {
                self.global_set(store, x);
                Ok(Ok(()))
            }
            Simple::TableGet(x) => Ok(self.table_get(store, x)),
            Simple::TableSet(x) => Ok(self.table_set(store, x)),
            Simple::TableInit { elem, table } => Ok(self.table_init(store, elem, table)),
            Simple::ElemDrop(x) => {
                self.elem_drop(store, x);
                Ok(Ok(()))
            }
            Simple::TableCopy { to, from } => Ok(self.table_copy(store, to, from)),
            Simple::TableGrow(x) => match self.table_grow(alloc, store, x) {
                Ok(()) => Ok(Ok(())),
                Err(error) => Err(error),
            },
            Simple::TableSize(x) => {
                self.table_size(store, x);
                Ok(Ok(()))
            }
            Simple::TableFill(x) => Ok(self.table_fill(store, x)),
            Simple::RefNull(ty) => {
                self.ref_null(ty);
                Ok(Ok(()))
            }
            Simple::RefFunc(x) => {
                self.ref_func(store, x);
                Ok(Ok(()))
            }
            Simple::Load {
                ty,
                width,
                extension,
                at,
            } => Ok(self.memory_load(store, ty, width, extension, at)),
            Simple::Store { ty, width, at } => Ok(self.memory_store(store, ty, width, at)),
            Simple::MemorySize => {
                self.memory_size(store);
                Ok(Ok(()))
            }
            Simple::MemoryGrow => unreachable!(),
            Simple::MemoryInit(x) => Ok(self.memory_init(store, x)),
            Simple::DataDrop(x) => {
                self.data_drop(store, x);
                Ok(Ok(()))
            }
            Simple::MemoryCopy => Ok(self.memory_copy(store)),
            Simple::MemoryFill => Ok(self.memory_fill(store)),
        }
    }
}
