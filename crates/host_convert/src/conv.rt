//! Answers of conversions.

use embed_base::OutsideKind;
use host_values::ErrorClass;

/// What a conversion or an operator gives.
#[derive(PartialEq, Eq, Debug, Drop)]
pub enum Conv<T> {
    Value(T),
    /// An error of this class is thrown.
    Throw(ErrorClass),
    /// The script leaves the profile.
    Outside(OutsideKind),
}
