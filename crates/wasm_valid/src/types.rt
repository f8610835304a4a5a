//! Lists of types that a module has.

ghost use Rattle.std.specs.Prelude.{◌≡◌};
ghost use Rattle.wasm_valid.specs.Signatures.{types_in};

use wasm_syntax::{Module, ValType};

/// A list of types that a module has.
#[derive(Clone, Copy, PartialEq, Eq, Debug)]
pub enum Types {
    Empty,
    One(ValType),
    /// The parameters of the type with this index.
    Params(u32),
    /// Its results.
    Results(u32),
}

/// The types of a list, lent.
pub fn types_of(module: &Module, types: Types) -> &[ValType]
    ensures { result.now ≡ types_in «module».now types }
{
    match types {
        Types::Empty => &[],
        Types::One(ty) => ty.as_slice(),
        Types::Params(index) => match module.types.get(index as usize) {
            Some(ty) => ty.params.as_slice(),
            None => &[],
        },
        Types::Results(index) => match module.types.get(index as usize) {
            Some(ty) => ty.results.as_slice(),
            None => &[],
        },
    }
}
