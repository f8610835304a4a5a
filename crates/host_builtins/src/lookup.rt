//! Members of predefined objects, and methods of objects, by their names.
ghost use Rattle.std.specs.Prelude.{◌≡◌};
ghost use Rattle.host_builtins.specs.Predefined as spec;

use crate::members::Member;
use host_values::{Class, Key, Kind};

/// A member of `Object`.
fn of_object(name: &str) -> Option<Member>
    ensures { result ≡ spec.member_of Class.Object name.now }
{
    match name {
        "keys" => Some(Member::Function),
        _ => None,
    }
}

/// A member of `Promise`.
fn of_promise(name: &str) -> Option<Member>
    ensures { result ≡ spec.member_of Class.Promise name.now }
{
    match name {
        "resolve" | "reject" | "withResolvers" => Some(Member::Function),
        _ => None,
    }
}

/// A member of `WebAssembly`.
fn of_web_assembly(name: &str) -> Option<Member>
    ensures { result ≡ spec.member_of Class.WebAssembly name.now }
{
    match name {
        "Module" => Some(Member::Class(Class::Module)),
        "Instance" => Some(Member::Class(Class::Instance)),
        "Memory" => Some(Member::Class(Class::Memory)),
        "Table" => Some(Member::Class(Class::Table)),
        "Global" => Some(Member::Class(Class::Global)),
        "Suspending" => Some(Member::Class(Class::Suspending)),
        "CompileError" => Some(Member::Class(Class::CompileError)),
        "LinkError" => Some(Member::Class(Class::LinkError)),
        "RuntimeError" => Some(Member::Class(Class::RuntimeError)),
        "SuspendError" => Some(Member::Class(Class::SuspendError)),
        "validate" | "promising" => Some(Member::Function),
        _ => None,
    }
}

/// A member of `WebAssembly.Module`.
fn of_module(name: &str) -> Option<Member>
    ensures { result ≡ spec.member_of Class.Module name.now }
{
    match name {
        "imports" | "exports" => Some(Member::Function),
        _ => None,
    }
}

/// The member of this name that a predefined object has, as `keys` of `Object` and `Module` of `WebAssembly`; none where it lacks the
/// name.
pub fn member(class: Class, name: &str) -> Option<Member>
    ensures { result ≡ spec.member_of class name.now }
{
    match class {
        Class::Object => of_object(name),
        Class::Promise => of_promise(name),
        Class::WebAssembly => of_web_assembly(name),
        Class::Module => of_module(name),
        _ => None,
    }
}

/// Whether a key is the name of a method that objects of this kind have. A method is called, and is no value.
pub fn is_method(kind: &Kind, key: &Key) -> bool
    ensures { result ≡ spec.is_method kind.now key.now }
{
    match kind {
        Kind::Array => key.is_name("push"),
        Kind::Promise(_) => key.is_name("then") || key.is_name("catch"),
        Kind::Memory(_) => key.is_name("grow"),
        Kind::Table(_) => key.is_name("get") || key.is_name("set") || key.is_name("grow"),
        Kind::Global(_) => key.is_name("valueOf"),
        _ => false,
    }
}
