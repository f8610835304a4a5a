//! Variable instructions (WebAssembly Core 2.0, section 4.4.5), and the null reference (4.4.2).

ghost use Rattle.std.specs.Prelude.{◌≡◌, ◌≢◌, ◌<◌, ◌≤◌, [], length};
ghost use Rattle.wasm_store.specs.Allocated.{null_of};
ghost use Rattle.wasm_machine.specs.View.{values_of, operands_of};
ghost use Rattle.wasm_machine.specs.Classes.{Goes};

use crate::frame::WasmFrame;
use wasm_syntax::{Simple, ValType, Value};

#[inline]
fn null(ty: ValType) -> Value
    ensures { result ≡ null_of ty }
{
    match ty {
        ValType::I32 => Value::FuncNull,
        ValType::I64 => Value::FuncNull,
        ValType::FuncRef => Value::FuncNull,
        ValType::ExternRef => Value::ExternNull,
    }
}

impl WasmFrame {
    #[inline]
    pub(crate) fn ref_null(&mut self, ty: ValType)
        requires { operands_of self.old < self.old.room }
        ensures { Goes (Simple.RefNull ty) self.old self.new }
    {
        self.push(null(ty));
    }

    #[inline]
    pub(crate) fn local_get(&mut self, x: u32)
        requires there { x < length self.old.locals }
        requires room { operands_of self.old < self.old.room }
        ensures { Goes (Simple.LocalGet x) self.old self.new }
    {
        let value = self.local(x);
        self.push(value);
    }

    #[inline]
    pub(crate) fn local_set(&mut self, x: u32)
        requires there { x < length self.old.locals }
        requires some { values_of self.old ≢ [] }
        ensures { Goes (Simple.LocalSet x) self.old self.new }
    {
        let value = self.pop();
        self.set_local(x, value);
    }

    #[inline]
    pub(crate) fn local_tee(&mut self, x: u32)
        requires there { x < length self.old.locals }
        requires some { values_of self.old ≢ [] }
        ensures { Goes (Simple.LocalTee x) self.old self.new }
    {
        if let Some(value) = self.topmost() {
            self.set_local(x, value);
        }
    }
}
