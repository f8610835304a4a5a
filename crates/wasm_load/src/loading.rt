ghost use Rattle.std.specs.Prelude.{◌≡◌, ◌≤◌, ◌^◌, ℕ, List, IfSome, length};
ghost use Rattle.wasm_load.specs.Loading.{Loaded, Loads, loaded_as, told_of};

use std::alloc::Global;
use thiserror::Error;
use wasm_grammar::{DecodeError, Foreign, decode, decodes_once};
use wasm_syntax::Module;
use wasm_valid::{Invalid, ValidModule, validate};

/// Why bytes give no valid module.
#[derive(Clone, Copy, PartialEq, Eq, Debug, Drop, Error)]
pub enum LoadError {
    /// The bytes spell no module of the binary format.
    #[error("the bytes spell no module")]
    Malformed,
    /// The bytes spell a module that has a type or an instruction which the profile leaves out. The first one in the file begins
    /// at its byte `place`, counted from 0. Whether the module is valid isn't asked.
    #[error("a type or instruction outside of the profile at byte {place}")]
    Outside { place: u64, what: Foreign },
    /// The bytes spell a module that isn't valid. `function` is the first of its own functions whose body isn't typed, counted
    /// without the imported ones; it is none where a rule that stands outside the bodies fails.
    #[error("the module isn't valid")]
    Invalid { function: Option<u32> },
    /// Memory ran out.
    #[error("out of memory")]
    NoMemory,
}

/// A module that was read, where it is valid.
fn validated(alloc: Global, read: Module) -> Result<ValidModule, LoadError>
    ensures { IfSome (told_of result) (λ answer. answer ≡ loaded_as read) }
{
    match validate(alloc, read) {
        Ok(valid) => Ok(valid),
        Err(Invalid::Invalid { function }) => Err(LoadError::Invalid { function }),
        Err(Invalid::NoMemory) => Err(LoadError::NoMemory),
    }
}

/// The valid module that the bytes spell, or why there is none.
///
/// The time and the memory grow with the number of bytes, and the time of a call with the types of its function.
pub fn load(alloc: Global, bytes: &[u8]) -> Result<ValidModule, LoadError>
    requires { length bytes.now ≤ 2 ^ 24 }
    // What is answered is so, and nothing else is: only where memory ran out nothing is told.
    ensures exact { (answer : Loaded) → Loads bytes.now answer → IfSome (told_of result) (λ told. told ≡ answer) }
{
    match decode(alloc, bytes) {
        Ok(read) => validated(alloc, read),
        Err(DecodeError::Malformed) => Err(LoadError::Malformed),
        Err(DecodeError::Outside { place, what }) => Err(LoadError::Outside { place, what }),
        Err(DecodeError::NoMemory) => Err(LoadError::NoMemory),
    }
}

/// What loading tells of bytes is determined by them, whatever the bytes are.
pub fn loads_once()
    ensures total { (bytes : List ℕ) → (answer : Loaded) × Loads bytes answer }
    ensures once { (bytes : List ℕ) (a b : Loaded) → Loads bytes a → Loads bytes b → a ≡ b }
{
    decodes_once();
}
