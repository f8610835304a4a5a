//! Instructions on operands of more than one type: `drop`, `select` and `ref.is_null` (WebAssembly Core 2.0, sections 4.4.2 and 4.4.4).

ghost use Rattle.std.specs.Prelude.{◌≡◌, ◌≢◌, ◌≤◌, [], Bool, MatchOption, Some};
ghost use Rattle.wasm_machine.specs.Performing.{is_null, chosen};
ghost use Rattle.wasm_machine.specs.View.{values_of, operands_of};
ghost use Rattle.wasm_machine.specs.Classes.{IsReferenceFirst, IsSelectable, Drops, Selects, TestsNull};

use crate::frame::WasmFrame;
use wasm_syntax::Value;

/// One of two values: the first one where the number isn't zero.
#[inline]
fn chosen(number: u32, first: Value, second: Value) -> Value
    ensures { result ≡ chosen number first second }
{
    if number == 0 { second } else { first }
}

impl WasmFrame {
    #[inline]
    pub(crate) fn drop_value(&mut self)
        requires { values_of self.old ≢ [] }
        ensures { Drops self.old self.new }
    {
        let _value = self.pop();
    }

    #[inline]
    pub(crate) fn select(&mut self)
        requires tops { IsSelectable (values_of self.old) }
        requires room { operands_of self.old ≤ self.old.room }
        ensures { Selects self.old self.new }
    {
        let number = self.pop_number();
        let second = self.pop();
        let first = self.pop();
        self.push(chosen(number, first, second));
    }

    #[inline]
    pub(crate) fn is_null(&mut self)
        requires tops { IsReferenceFirst (values_of self.old) }
        requires room { operands_of self.old ≤ self.old.room }
        ensures { TestsNull self.old self.new }
    {
        match self.pop() {
            Value::FuncNull => self.push(Value::I32(1)),
            Value::ExternNull => self.push(Value::I32(1)),
            Value::Func(_) => self.push(Value::I32(0)),
            Value::Extern(_) => self.push(Value::I32(0)),
            _ => unreachable!(),
        }
    }
}
