//! Error objects.
ghost use Rattle.std.specs.Prelude.{◌≡◌, [], IfOk, OnOk, OnErr};
ghost use Rattle.host_values.specs.declared.kinds.Kind.TheVariants as kinds;
ghost use Rattle.host_values.specs.declared.values.HostValue.TheVariants as values;
ghost use Rattle.host_values.specs.Heaps.{next_object, with_object};
ghost use Rattle.host_builtins.specs.Calls.{error_made};
ghost use Rattle.host_builtins.specs.Replies as spec;

use crate::replies::Reply;
use embed_base::SharedString;
use host_convert::{Conv, to_text};
use host_values::{Class, ErrorClass, Heap, HostValue, Kind};
use std::alloc::{AllocError, Global};

/// The class of the errors that a predefined object makes; none where it makes none.
pub fn class_of_errors(class: Class) -> Option<ErrorClass>
    ensures { result ≡ spec.error_class class }
{
    match class {
        Class::Error => Some(ErrorClass::Error),
        Class::TypeError => Some(ErrorClass::TypeError),
        Class::RangeError => Some(ErrorClass::RangeError),
        Class::ReferenceError => Some(ErrorClass::ReferenceError),
        Class::SyntaxError => Some(ErrorClass::SyntaxError),
        Class::CompileError => Some(ErrorClass::CompileError),
        Class::LinkError => Some(ErrorClass::LinkError),
        Class::RuntimeError => Some(ErrorClass::RuntimeError),
        Class::SuspendError => Some(ErrorClass::SuspendError),
        _ => None,
    }
}

/// Makes an error of this class with this message, where the empty text is none, as the machine does to throw it.
pub fn error(
    alloc: Global,
    heap: &mut Heap,
    class: ErrorClass,
    message: SharedString,
) -> Result<HostValue, AllocError>
    ensures fresh { IfOk result (λ v. v ≡ values.Object (next_object heap.old)) }
    ensures ok { OnOk result (heap.new ≡ with_object heap.old (kinds.Error class message) []) }
    ensures err { OnErr result (heap.new ≡ heap.old) }
{
    let object = heap.add(alloc, Kind::Error { class, message })?;
    Ok(HostValue::Object(object))
}

/// The message of an error that is made with these arguments.
fn message(alloc: Global, args: &[HostValue]) -> Result<Conv<SharedString>, AllocError>
    ensures { IfOk result (λ text. text ≡ spec.message_of args.now) }
{
    match args.first() {
        None | Some(HostValue::Undefined) => {
            let text = SharedString::from_str(alloc, "")?;
            Ok(Conv::Value(text))
        }
        Some(value) => to_text(alloc, value),
    }
}

/// An error of this class as a script makes it (ECMA-262, sections 20.5.1.1 and 20.5.6.1.1).
pub fn make(
    alloc: Global,
    heap: &mut Heap,
    class: ErrorClass,
    args: &[HostValue],
) -> Result<Reply, AllocError>
    ensures reply { IfOk result (λ r. r ≡ (error_made heap.old class (spec.message_of args.now)).reply) }
    ensures ok { OnOk result (heap.new ≡ (error_made heap.old class (spec.message_of args.now)).heap) }
    ensures err { OnErr result (heap.new ≡ heap.old) }
{
    match message(alloc, args)? {
        Conv::Value(message) => {
            let error = error(alloc, heap, class, message)?;
            Ok(Reply::Value(error))
        }
        Conv::Throw(thrown) => Ok(Reply::Throw(thrown)),
        Conv::Outside(kind) => Ok(Reply::Outside(kind)),
    }
}
