//! Object literals.

ghost use Rattle.std.specs.Prelude.{◌≡◌, [], ◌∷◌, ◌++◌, IfOk};
ghost use Rattle.host_nodes.specs.Building as spec;
ghost use Rattle.host_nodes.specs.Tables as tables;
ghost use Rattle.host_nodes.specs.declared.form.Key.TheVariants as keys;
ghost use Rattle.host_nodes.specs.declared.state.At.TheVariants as places;
ghost use Rattle.host_nodes.specs.declared.state.Item.TheVariants as opened;

use crate::builder::{Builder, lost};
use crate::form::{Form, Key, Property};
use crate::state::{At, Item, ObjectSoFar};
use crate::words::word_text;
use embed_base::SharedString;
use host_lexer::{Mark, TokenKind};
use std::alloc::AllocError;

fn with_property(object: ObjectSoFar, property: Property) -> Result<ObjectSoFar, AllocError>
    ensures { IfOk result (λ o. o ≡ spec.with_property object property) }
{
    let mut object = object;
    object.properties.push(property)?;
    Ok(object)
}

fn key_text(key: Key) -> SharedString
    ensures { result ≡ spec.key_text key }
{
    match key {
        Key::Word(text) => text,
        Key::Text(text) => text,
        Key::Alone(text) => text,
    }
}

impl Builder {
    pub(crate) fn object_ended(&mut self, object: ObjectSoFar) -> Result<(), AllocError>
        ensures { IfOk result (λ _. self.new ≡ spec.object_ended object self.old.stack self.old self.old.table) }
    {
        let ObjectSoFar {
            place,
            properties,
            level,
        } = object;
        self.resume_with(Form::Object(properties), place, level)
    }

    // The last node is the value of this key.
    fn with_value(
        &self,
        object: ObjectSoFar,
        key: Key,
        place: u32,
    ) -> Result<ObjectSoFar, AllocError>
        ensures { IfOk result (λ o. o ≡ spec.with_property object (spec.property_of key place (tables.last self.now.table))) }
    {
        let value = self.table.last();
        with_property(object, Property { key, place, value })
    }

    fn property_braced(
        &mut self,
        object: ObjectSoFar,
        key: Key,
        place: u32,
    ) -> Result<(), AllocError>
        ensures { IfOk result (λ _. self.new ≡ spec.braced_in (opened.Keyed object key place ∷ self.old.stack) self.old (spec.closed_table self.old.level self.old.table)) }
    {
        self.close_level()?;
        let object = self.with_value(object, key, place)?;
        self.object_ended(object)
    }

    // `}` after an expression.
    pub(crate) fn braced(&mut self) -> Result<(), AllocError>
        ensures { IfOk result (λ _. self.new ≡ spec.braced_in self.old.stack self.old (spec.closed_table self.old.level self.old.table)) }
    {
        let Some(item) = self.stack.pop() else {
            return Ok(());
        };
        match item {
            Item::Keyed { object, key, place } => self.property_braced(object, key, place),
            other => lost(other),
        }
    }

    pub(crate) fn property_parted(
        &mut self,
        object: ObjectSoFar,
        key: Key,
        place: u32,
    ) -> Result<(), AllocError>
        ensures { IfOk result (λ _. self.new ≡ spec.parted_in (opened.Keyed object key place ∷ self.old.stack) self.old (spec.closed_table self.old.level self.old.table)) }
    {
        self.close_level()?;
        let object = self.with_value(object, key, place)?;
        self.open_with(At::Property, Item::Object { object })
    }

    fn object_keyed(
        &mut self,
        object: ObjectSoFar,
        at: At,
        key: Key,
        place: u32,
    ) -> Result<(), AllocError>
        ensures { IfOk result (λ _. self.new ≡ spec.keyed_in (opened.Object object ∷ self.old.stack) self.old at key place) }
    {
        self.stack.push(Item::Keyed { object, key, place })?;
        self.at = at;
        Ok(())
    }

    fn keyed(&mut self, at: At, key: Key, place: u32) -> Result<(), AllocError>
        ensures { IfOk result (λ _. self.new ≡ spec.keyed_in self.old.stack self.old at key place) }
    {
        let Some(item) = self.stack.pop() else {
            return Ok(());
        };
        match item {
            Item::Object { object } => self.object_keyed(object, at, key, place),
            other => lost(other),
        }
    }

    fn keyed_by_word(&mut self, at: At, text: &str, place: u32) -> Result<(), AllocError>
        ensures { IfOk result (λ _. self.new ≡ spec.keyed_in self.old.stack self.old at (keys.Word text.now) place) }
    {
        let text = self.shared(text)?;
        self.keyed(at, Key::Word(text), place)
    }

    fn keyed_by_text(&mut self, text: &str, place: u32) -> Result<(), AllocError>
        ensures { IfOk result (λ _. self.new ≡ spec.keyed_in self.old.stack self.old places.OtherKey (keys.Text text.now) place) }
    {
        let text = self.shared(text)?;
        self.keyed(At::OtherKey, Key::Text(text), place)
    }

    pub(crate) fn propertied(&mut self, place: u32, kind: &TokenKind) -> Result<(), AllocError>
        ensures { IfOk result (λ _. self.new ≡ spec.propertied self.old place kind.now) }
    {
        match kind {
            TokenKind::Mark(Mark::CloseBrace) => self.list_closed(),
            TokenKind::Name(name) => self.keyed_by_word(At::NamedKey, name.as_str(), place),
            TokenKind::Word(word) => self.keyed_by_word(At::OtherKey, word_text(*word), place),
            TokenKind::Text(text) => self.keyed_by_text(text.as_str(), place),
            _ => Ok(()),
        }
    }

    // A name alone is a property, whose value is that name's.
    fn add_alone(
        &mut self,
        object: ObjectSoFar,
        key: Key,
        place: u32,
    ) -> Result<ObjectSoFar, AllocError>
        ensures object { IfOk result (λ o. o ≡ spec.alone object key place (tables.add_name (spec.key_text key) place self.old.table)) }
        ensures builder { IfOk result (λ _. self.new ≡ spec.with_table (tables.add_name (spec.key_text key) place self.old.table) self.old) }
    {
        let text = key_text(key);
        let named = text.clone()?;
        self.table.add_name(named, place)?;
        self.with_value(object, Key::Alone(text), place)
    }

    fn property_alone_parted(
        &mut self,
        object: ObjectSoFar,
        key: Key,
        place: u32,
    ) -> Result<(), AllocError>
        ensures { IfOk result (λ _. self.new ≡ spec.alone_parted (opened.Keyed object key place ∷ self.old.stack) self.old) }
    {
        let object = self.add_alone(object, key, place)?;
        self.stack.push(Item::Object { object })?;
        self.at = At::Property;
        Ok(())
    }

    fn alone_parted(&mut self) -> Result<(), AllocError>
        ensures { IfOk result (λ _. self.new ≡ spec.alone_parted self.old.stack self.old) }
    {
        let Some(item) = self.stack.pop() else {
            return Ok(());
        };
        match item {
            Item::Keyed { object, key, place } => { self.property_alone_parted(object, key, place) }
            other => lost(other),
        }
    }

    fn property_alone_braced(
        &mut self,
        object: ObjectSoFar,
        key: Key,
        place: u32,
    ) -> Result<(), AllocError>
        ensures { IfOk result (λ _. self.new ≡ spec.alone_braced (opened.Keyed object key place ∷ self.old.stack) self.old) }
    {
        let object = self.add_alone(object, key, place)?;
        self.object_ended(object)
    }

    fn alone_braced(&mut self) -> Result<(), AllocError>
        ensures { IfOk result (λ _. self.new ≡ spec.alone_braced self.old.stack self.old) }
    {
        let Some(item) = self.stack.pop() else {
            return Ok(());
        };
        match item {
            Item::Keyed { object, key, place } => { self.property_alone_braced(object, key, place) }
            other => lost(other),
        }
    }

    pub(crate) fn name_keyed(&mut self, place: u32, kind: &TokenKind) -> Result<(), AllocError>
        ensures { IfOk result (λ _. self.new ≡ spec.name_keyed self.old place kind.now) }
    {
        match kind {
            TokenKind::Mark(Mark::Colon) => self.move_to(At::Want),
            TokenKind::Mark(Mark::Comma) => self.alone_parted(),
            TokenKind::Mark(Mark::CloseBrace) => self.alone_braced(),
            _ => Ok(()),
        }
    }

    pub(crate) fn other_keyed(&mut self, kind: &TokenKind) -> Result<(), AllocError>
        ensures { IfOk result (λ _. self.new ≡ spec.other_keyed self.old kind.now) }
    {
        match kind {
            TokenKind::Mark(Mark::Colon) => self.move_to(At::Want),
            _ => Ok(()),
        }
    }
}
