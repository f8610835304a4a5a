//! What the next step takes of the budget.

ghost use Rattle.std.specs.Prelude.{◌≡◌, ◌<◌, List, length};
ghost use Rattle.wasm_machine.specs.View.{values_of, term_of};
ghost use Rattle.wasm_machine.specs.Charges.{per_count, charge_of_instr, charge_of};
ghost use Rattle.wasm_machine.specs.Fits.{Fits};
ghost use Rattle.wasm_syntax.specs.declared.types.ValType.{ValType};

use crate::frame::WasmFrame;
use wasm_store::Store;
use wasm_syntax::{Instr, Value};

impl WasmFrame {
    // Whole 1,024s of the count on which a bulk instruction works.
    fn per_count(&self) -> u32
        ensures { result ≡ per_count (values_of self.now) }
    {
        match self.topmost() {
            Some(Value::I32(count)) => count / 1024,
            _ => 0,
        }
    }

    // The charge of an instruction.
    #[inline]
    fn charge_of_instr(&self, instr: &Instr) -> u64
        ensures { result ≡ charge_of_instr instr.now (values_of self.now) }
    {
        match instr {
            Instr::MemoryInit(_) => 1 + self.per_count() as u64,
            Instr::MemoryCopy => 1 + self.per_count() as u64,
            Instr::MemoryFill => 1 + self.per_count() as u64,
            Instr::TableInit { .. } => 1 + self.per_count() as u64,
            Instr::TableCopy { .. } => 1 + self.per_count() as u64,
            Instr::TableFill(_) => 1 + self.per_count() as u64,
            Instr::TableGrow(_) => 1 + self.per_count() as u64,
            _ => 1,
        }
    }

    /// The charge of the next step: one unit for the instruction that it begins, and for the bulk instructions and `table.grow` one more
    /// for each whole 1,024 of their count; nothing where a list has ended.
    #[inline]
    pub fn charge(&self, store: &Store) -> u64
        requires { (R : List ValType) × Fits store.now R self.now }
        ensures { result ≡ charge_of (term_of store.now self.now) }
    {
        match self.next(store) {
            Some(instr) => self.charge_of_instr(instr),
            None => 0,
        }
    }
}
