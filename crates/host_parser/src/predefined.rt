//! The names that are there without a declaration.

ghost use Rattle.std.specs.Prelude.{◌≡◌};
ghost use Rattle.host_parser.specs.Predefined as spec;

/// A name that every script may refer to and none needs to declare: the print and file functions of the command, the error classes and
/// other classes of ECMA-262 (section 19), and the namespace of the WebAssembly JavaScript Interface. A declaration of the script hides it.
#[derive(Clone, Copy, PartialEq, Eq, Debug)]
pub enum Predefined {
    Print,
    Readbuffer,
    Utf8Text,
    Object,
    BigInt,
    Number,
    String,
    Promise,
    Uint8Array,
    Error,
    TypeError,
    RangeError,
    ReferenceError,
    SyntaxError,
    WebAssembly,
}

/// The predefined name with this text, if there is one.
pub fn predefined_of(name: &str) -> Option<Predefined>
    ensures { result ≡ spec.predefined_of name.now }
{
    match name {
        "print" => Some(Predefined::Print),
        "readbuffer" => Some(Predefined::Readbuffer),
        "utf8Text" => Some(Predefined::Utf8Text),
        "Object" => Some(Predefined::Object),
        "BigInt" => Some(Predefined::BigInt),
        "Number" => Some(Predefined::Number),
        "String" => Some(Predefined::String),
        "Promise" => Some(Predefined::Promise),
        "Uint8Array" => Some(Predefined::Uint8Array),
        "Error" => Some(Predefined::Error),
        "TypeError" => Some(Predefined::TypeError),
        "RangeError" => Some(Predefined::RangeError),
        "ReferenceError" => Some(Predefined::ReferenceError),
        "SyntaxError" => Some(Predefined::SyntaxError),
        "WebAssembly" => Some(Predefined::WebAssembly),
        _ => None,
    }
}
