//! Values of the host that modules hold, by their addresses.
ghost use Rattle.std.specs.Prelude.{◌≡◌, [], ◌∷◌, ◌++◌, ◌<◌, ◌↔◌, IsTrue, length, None, Some, slice_get, slice_index_or, IfOk, OnOk, OnErr};
ghost use Rattle.host_values.specs.declared.values.HostValue.TheVariants as values;
ghost use Rattle.std.specs.Option.{option_map_or};
ghost use Rattle.iface_caches.specs.Caches.{AreDistinct, place_of};

use crate::extern_key::ExternKey;
use host_values::HostValue;
use std::alloc::{AllocError, Global};
use std::collections::BTreeMap;
use std::marker::Model;
use wasm_syntax::ExternAddr;

/// The values by their addresses, and the addresses of the values.
#[derive(Drop)]
pub struct Externs {
    values: Vec<HostValue>,
    places: BTreeMap<ExternKey, u64>,
}

impl Model for Externs {
    ghost use Rattle.std.specs.Prelude.{List};
    ghost use Rattle.host_values.specs.declared.values.HostValue.{HostValue};
    ghost use Rattle.iface_caches.specs.KeyOrder.{IsIndexed};

    ghost Value = { List HostValue };

    ghost view = { λ e. e.values.items };

    ghost invariant = { λ e. IsIndexed e.places.entries e.values.items };
}

impl Externs {
    /// No values. It takes no memory.
    pub fn new(alloc: Global) -> Externs
        ensures { result ≡ [] }
    {
        Externs {
            values: Vec::new(alloc),
            places: BTreeMap::new(alloc),
        }
    }

    /// No two of the values are strictly equal.
    pub fn distinct(&self)
        ensures { AreDistinct self.now }
    {
        let _ = &self.values;
    }

    /// Whether an address is that of a value.
    pub fn has(&self, a: ExternAddr) -> bool
        ensures { IsTrue result ↔ (a.0 < length self.now) }
    {
        a.0 < self.values.len() as u64
    }

    /// The value of an address, lent.
    pub fn value(&self, a: ExternAddr) -> &HostValue
        requires { a.0 < length self.now }
        ensures { slice_get self.now a.0 ≡ Some result.now }
    {
        &self.values[a.0 as usize]
    }

    /// A copy of the value of an address, undefined where none has it.
    pub fn value_or_undefined(&self, a: ExternAddr) -> Result<HostValue, AllocError>
        ensures { IfOk result (λ value. value ≡ slice_index_or self.now a.0 values.Undefined) }
    {
        if self.has(a) {
            self.value(a).clone()
        } else {
            Ok(HostValue::Undefined)
        }
    }

    /// The address of a value, which goes to the end where no strictly equal one is there.
    pub fn address(&mut self, value: HostValue) -> Result<ExternAddr, AllocError>
        ensures address { IfOk result (λ a. a.0 ≡ option_map_or (λ n. n) (place_of value self.old) (length self.old)) }
        ensures ok { OnOk result (self.new ≡ option_map_or (λ n. self.old) (place_of value self.old) (self.old ++ value ∷ [])) }
        ensures err { OnErr result (self.new ≡ self.old) }
    {
        let key = ExternKey { value };
        match self.place(&key) {
            Some(place) => Ok(ExternAddr(place)),
            None => self.add(key),
        }
    }

    // Where a strictly equal value stands, if there is one.
    fn place(&self, key: &ExternKey) -> Option<u64>
        ensures { result ≡ place_of key.now.value self.now }
    {
        self.places.get(key).copied()
    }

    // A value that isn't there goes to the end.
    fn add(&mut self, key: ExternKey) -> Result<ExternAddr, AllocError>
        requires { place_of key.value self.old ≡ None }
        ensures address { IfOk result (λ a. a.0 ≡ length self.old) }
        ensures ok { OnOk result (self.new ≡ self.old ++ key.value ∷ []) }
        ensures err { OnErr result (self.new ≡ self.old) }
    {
        let place = self.values.len() as u64;
        let value = key.value.clone()?;
        self.values.reserve(1)?;
        self.places.insert(key, place)?;
        self.values.push_reserved(value);
        Ok(ExternAddr(place))
    }
}
