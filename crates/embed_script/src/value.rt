ghost use Rattle.std.specs.Prelude.{◌≡◌, ◌++◌, OnOk, string_bytes};
ghost use Rattle.embed_script.specs.Values.{shown_of};

use embed_base::SharedString;
use std::alloc::AllocError;
use wasm_syntax::FuncAddr;

/// What a name is bound to.
#[derive(Debug, Drop)]
pub(crate) enum Bound {
    Value(Value),
    Function(FuncAddr),
}

/// A value of a script. A text's bytes are shared by its copies.
#[derive(Debug, Drop)]
pub(crate) enum Value {
    Number(i64),
    Text(SharedString),
}

impl Value {
    /// Adds the value's shown form to a text.
    pub(crate) fn show(&self, text: &mut String) -> Result<(), AllocError>
        ensures { OnOk result (string_bytes text.new ≡ string_bytes text.old ++ shown_of self.now) }
    {
        match self {
            Value::Number(number) => write!(text, "{number}"),
            Value::Text(bytes) => text.push_str(bytes.as_str()),
        }
    }
}

impl Clone for Value {
    ghost is_clone = { λ value copy. copy ≡ value };

    fn clone(&self) -> Result<Value, AllocError> {
        match self {
            Value::Number(number) => Ok(Value::Number(*number)),
            Value::Text(text) => Ok(Value::Text(text.clone()?)),
        }
    }
}
