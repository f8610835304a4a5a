//! The results of a call are put in place.

ghost use Rattle.std.specs.Prelude.{◌≡◌, ◌++◌, List, reverse};
ghost use Rattle.std.specs.List.{AllZip};
ghost use Rattle.wasm_syntax.specs.declared.types.ValType.{ValType};
ghost use Rattle.wasm_store.specs.Store.{Store};
ghost use Rattle.wasm_store.specs.Whole.{HasType};
ghost use Rattle.wasm_machine.specs.View.{values_of, with_values};
ghost use Rattle.wasm_machine.specs.Fits.{Fits, Waits};

use crate::frame::WasmFrame;
use wasm_syntax::Value;

impl WasmFrame {
    /// Puts the results of the call for which the frame waits in place. It takes no memory.
    pub fn supply(&mut self, results: &[Value])
        requires { (s : Store) × (R : List ValType) × (types : List ValType) × Waits s R types self.old × AllZip (HasType s) results.now types }
        ensures supplied { self.new ≡ with_values (reverse results.now ++ values_of self.old) self.old }
        ensures fits { (s : Store) (R types : List ValType) → Waits s R types self.old → AllZip (HasType s) results.now types → Fits s R self.new }
    {
        self.push_all(results);
    }
}
