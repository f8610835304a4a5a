//! One object of the heap.
ghost use Rattle.std.specs.Prelude.{◌≡◌, OnOk, OnErr};
ghost use Rattle.host_values.specs.Heaps.{object_with};

use crate::keys::Key;
use crate::kinds::Kind;
use crate::values::HostValue;
use indexmap::IndexMap;
use std::alloc::{AllocError, Global};
use std::marker::Model;

/// An object: what it is, and its properties in order of creation.
#[derive(Drop)]
pub struct Stored {
    kind: Kind,
    properties: IndexMap<Key, HostValue>,
}

impl Model for Stored {
    ghost use Rattle.host_values.specs.Objects.{HostObject};

    ghost Value = { HostObject };

    ghost view = { λ s. record { kind = s.kind; properties = s.properties.entries } };
}

impl Stored {
    /// An object of this kind with these properties.
    pub fn new(kind: Kind, properties: IndexMap<Key, HostValue>) -> Stored
        ensures { result ≡ record { kind = kind; properties = properties.entries } }
    {
        Stored { kind, properties }
    }

    /// What it is.
    pub fn kind(&self) -> &Kind
        ensures { result.now ≡ self.now.kind }
    {
        &self.kind
    }

    /// Its properties, lent.
    pub fn properties(&self) -> &IndexMap<Key, HostValue>
        ensures { result.now.entries ≡ self.now.properties }
    {
        &self.properties
    }

    /// Gives a property a value.
    pub fn write(&mut self, key: Key, value: HostValue) -> Result<(), AllocError>
        ensures ok { OnOk result (self.new ≡ object_with self.old key value) }
        ensures err { OnErr result (self.new ≡ self.old) }
    {
        self.properties.insert(key, value)?;
        Ok(())
    }
}
