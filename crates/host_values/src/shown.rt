//! How `print` shows objects.
ghost use Rattle.std.specs.Prelude.{◌≡◌, IfOk, string_bytes};
ghost use Rattle.host_values.specs.Shown.{shown_error, shown_kind};

use crate::kinds::Kind;
use crate::values::ErrorClass;
use std::alloc::{AllocError, Global};

/// The shown form of an error.
fn of_error(alloc: Global, class: ErrorClass, message: &str) -> Result<String, AllocError>
    ensures { IfOk result (λ text. string_bytes text ≡ shown_error class message.now) }
{
    let mut text = String::from_str(alloc, class.name())?;
    if !message.is_empty() {
        text.push_str(": ")?;
        text.push_str(message)?;
    }
    Ok(text)
}

/// The shown form of an object.
pub fn of_kind(alloc: Global, kind: &Kind) -> Result<String, AllocError>
    ensures { IfOk result (λ text. string_bytes text ≡ shown_kind kind.now) }
{
    match kind {
        Kind::Error { class, message } => of_error(alloc, *class, message.as_str()),
        Kind::Plain | Kind::Exports => String::from_str(alloc, "[Object]"),
        Kind::Array => String::from_str(alloc, "[Array]"),
        Kind::Function(_) => String::from_str(alloc, "[Function]"),
        Kind::Promise(_) => String::from_str(alloc, "[Promise]"),
        Kind::Buffer(_) => String::from_str(alloc, "[ArrayBuffer]"),
        Kind::View { .. } => String::from_str(alloc, "[Uint8Array]"),
        Kind::Module(_) => String::from_str(alloc, "[Module]"),
        Kind::Instance { .. } => String::from_str(alloc, "[Instance]"),
        Kind::Memory(_) => String::from_str(alloc, "[Memory]"),
        Kind::Table(_) => String::from_str(alloc, "[Table]"),
        Kind::Global(_) => String::from_str(alloc, "[Global]"),
        Kind::Suspending(_) => String::from_str(alloc, "[Suspending]"),
    }
}
