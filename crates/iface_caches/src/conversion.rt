//! Why a value isn't converted.

use embed_base::OutsideKind;
use host_values::ErrorClass;
use std::alloc::AllocError;

/// Why a value of a script isn't converted to one of a module.
#[derive(PartialEq, Eq, Debug, Drop)]
pub enum Conversion {
    /// An error of this class is thrown, which is TypeError.
    Throw(ErrorClass),
    /// The script leaves the profile.
    Outside(OutsideKind),
    NoMemory,
}

impl From<AllocError> for Conversion {
    ghost use Rattle.iface_caches.specs.declared.conversion.Conversion.TheVariants.{NoMemory};
    ghost use Rattle.std.specs.Prelude.{◌≡◌};

    ghost from_gives = { λ _ e. e ≡ NoMemory };

    fn from(_: AllocError) -> Self {
        Conversion::NoMemory
    }
}
