//! Values of scripts (ECMA-262, section 6.1).
ghost use Rattle.std.specs.Prelude.{◌≡◌};
ghost use Rattle.host_values.specs.ErrorNames.{class_name};

use embed_base::SharedString;
use std::alloc::AllocError;

/// The number of an object. Each heap counts its objects from 0 in the order in which they were made.
#[derive(Clone, Copy, PartialEq, Eq, Hash, Debug)]
pub struct ObjId(pub u64);

/// The class of an error: those of ECMA-262, section 20.5, and of the WebAssembly JavaScript Interface.
#[derive(Clone, Copy, PartialEq, Eq, Hash, Debug)]
pub enum ErrorClass {
    Error,
    TypeError,
    RangeError,
    ReferenceError,
    SyntaxError,
    CompileError,
    LinkError,
    RuntimeError,
    SuspendError,
}

impl ErrorClass {
    /// The name that a script sees.
    pub fn name(self) -> &'static str
        ensures { result.now ≡ class_name self }
    {
        match self {
            ErrorClass::Error => "Error",
            ErrorClass::TypeError => "TypeError",
            ErrorClass::RangeError => "RangeError",
            ErrorClass::ReferenceError => "ReferenceError",
            ErrorClass::SyntaxError => "SyntaxError",
            ErrorClass::CompileError => "CompileError",
            ErrorClass::LinkError => "LinkError",
            ErrorClass::RuntimeError => "RuntimeError",
            ErrorClass::SuspendError => "SuspendError",
        }
    }
}

/// A value of a script. The bytes of a text are shared by its clones, and are UTF-8.
#[derive(PartialEq, Eq, Hash, Debug, Drop)]
pub enum HostValue {
    Undefined,
    Null,
    Bool(bool),
    /// A whole Number within 2^53-1.
    Number(i64),
    /// A BigInt of signed 128 bits.
    BigInt(i128),
    Text(SharedString),
    Object(ObjId),
}

impl Clone for HostValue {
    ghost is_clone = { λ value copy. copy ≡ value };

    fn clone(&self) -> Result<HostValue, AllocError> {
        match self {
            HostValue::Undefined => Ok(HostValue::Undefined),
            HostValue::Null => Ok(HostValue::Null),
            HostValue::Bool(truth) => Ok(HostValue::Bool(*truth)),
            HostValue::Number(number) => Ok(HostValue::Number(*number)),
            HostValue::BigInt(number) => Ok(HostValue::BigInt(*number)),
            HostValue::Text(text) => Ok(HostValue::Text(text.clone()?)),
            HostValue::Object(object) => Ok(HostValue::Object(*object)),
        }
    }
}
