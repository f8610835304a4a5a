//! Values of the host as keys of an ordered map. The kit's hashes are the same in each run, so a script could choose values that
//! collide in a hashed one.
ghost use Rattle.std.specs.Prelude.{◌≡◌};
ghost use Rattle.std.specs.Cmp.{partial_equiv_from_equiv, partial_order_from_total};
ghost use Rattle.std.proofs.Common.{refl};
ghost use Rattle.std.proofs.lemmas.Cmp.{eq_by_cmp_equiv};
ghost use Rattle.std.specs.Ordering.{as_partial_cmp, eq_by_cmp};
ghost use Rattle.iface_caches.specs.ValueOrder as spec;
ghost use Rattle.iface_caches.specs.KeyOrder.{key_cmp, key_cmp_total};

use host_values::HostValue;
use std::cmp::Ordering;

/// A value, ordered by its type and then by what it holds. Two are equal where the values are strictly equal.
#[derive(Drop)]
pub struct ExternKey {
    pub value: HostValue,
}

impl ExternKey {
    /// The number of the value's type.
    fn rank(&self) -> u8
        ensures { result ≡ spec.rank self.now.value }
    {
        match &self.value {
            HostValue::Undefined => 0,
            HostValue::Null => 1,
            HostValue::Bool(_) => 2,
            HostValue::Number(_) => 3,
            HostValue::BigInt(_) => 4,
            HostValue::Text(_) => 5,
            HostValue::Object(_) => 6,
        }
    }

    /// The number that the value holds, where it holds one.
    fn number(&self) -> i128
        ensures { result ≡ spec.number self.now.value }
    {
        match &self.value {
            HostValue::Undefined | HostValue::Null | HostValue::Text(_) => 0,
            HostValue::Bool(truth) => i128::from(*truth),
            HostValue::Number(number) => i128::from(*number),
            HostValue::BigInt(number) => *number,
            HostValue::Object(object) => i128::from(object.0),
        }
    }

    /// The text that the value holds, where it holds one.
    fn text(&self) -> &str
        ensures { result.now ≡ spec.text self.now.value }
    {
        match &self.value {
            HostValue::Text(text) => text.as_str(),
            _ => "",
        }
    }
}

impl PartialEq for ExternKey {
    ghost eq = { eq_by_cmp key_cmp };

    ghost laws = { partial_equiv_from_equiv (eq_by_cmp_equiv key_cmp_total) };

    fn eq(&self, other: &ExternKey) -> bool {
        self.cmp(other) == Ordering::Equal
    }
}

impl Eq for ExternKey {
    ghost laws = { eq_by_cmp_equiv key_cmp_total };
}

impl PartialOrd for ExternKey {
    ghost partial_cmp = { as_partial_cmp key_cmp };

    ghost laws = { partial_order_from_total key_cmp_total };

    fn partial_cmp(&self, other: &ExternKey) -> Option<Ordering> {
        Some(self.cmp(other))
    }
}

impl Ord for ExternKey {
    ghost cmp = { key_cmp };

    ghost total = { key_cmp_total };

    ghost matches_partial_cmp = { λ a b. refl };

    ghost matches_eq = { λ a b. refl };

    fn cmp(&self, other: &ExternKey) -> Ordering {
        self.rank()
            .cmp(&other.rank())
            .then(self.number().cmp(&other.number()))
            .then(self.text().cmp(other.text()))
    }
}
