//! Scopes: the script, blocks, the parts of a `try`, and the bodies of functions.

ghost use Rattle.std.specs.Prelude.{◌≡◌, [], ◌∷◌, ◌++◌, IfOk};
ghost use Rattle.host_nodes.specs.Building as spec;
ghost use Rattle.host_nodes.specs.Tables as tables;
ghost use Rattle.host_nodes.specs.declared.state.Item.TheVariants as opened;
ghost use Rattle.host_nodes.specs.declared.state.Owner.TheVariants as owners;

use crate::builder::{Builder, lost};
use crate::form::{Declared, Declares, Form, NodeId};
use crate::state::{At, Item, Level, Owner, Scope};
use embed_base::PlainList;
use host_lexer::{Mark, TokenKind, Word};
use std::alloc::AllocError;

impl Builder {
    pub(crate) fn scope_begins(
        &mut self,
        place: u32,
        declared: PlainList<Declared>,
        owner: Owner,
    ) -> Result<(), AllocError>
        ensures { IfOk result (λ _. self.new ≡ spec.scope_begins (spec.scope_of place declared) owner self.old.stack self.old) }
    {
        self.table.begins()?;
        let scope = Scope {
            place,
            declared,
            items: PlainList::new(self.alloc()),
        };
        self.stack.push(Item::Scope { scope, owner })?;
        self.at = At::Items;
        Ok(())
    }

    fn add_item(&mut self, scope: Scope, owner: Owner) -> Result<(), AllocError>
        ensures { IfOk result (λ _. self.new ≡ spec.with_scope (spec.with_item scope (tables.last self.old.table)) owner self.old) }
    {
        let Scope {
            place,
            declared,
            items,
        } = scope;
        let items = self.with_last(items)?;
        let scope = Scope {
            place,
            declared,
            items,
        };
        self.stack.push(Item::Scope { scope, owner })
    }

    // An item ends, whose node is the last one.
    pub(crate) fn next_item(&mut self) -> Result<(), AllocError>
        ensures { IfOk result (λ _. self.new ≡ spec.next_item self.old.stack self.old self.old.table) }
    {
        let alloc = self.alloc();
        self.at = At::Items;
        self.level = Level::fresh(alloc);
        self.told = PlainList::new(alloc);
        let Some(item) = self.stack.pop() else {
            return Ok(());
        };
        match item {
            Item::Scope { scope, owner } => self.add_item(scope, owner),
            other => lost(other),
        }
    }

    // A statement is read, whose node is the last one.
    fn completed(&mut self)
        ensures { self.new ≡ spec.complete self.old.stack self.old self.old.table }
    {
        self.level = Level::fresh(self.alloc());
        self.at = At::Complete;
    }

    fn try_read(&mut self, place: u32) -> Result<(), AllocError>
        ensures { IfOk result (λ _. self.new ≡ spec.owner_goes_on (owners.Try place) self.old.stack self.old self.old.table) }
    {
        let body = self.table.last();
        let declared = PlainList::new(self.alloc());
        self.stack.push(Item::Tried {
            place,
            body,
            declared,
        })?;
        self.at = At::TryRead;
        Ok(())
    }

    fn catch_read(&mut self, place: u32, body: NodeId, caught: bool) -> Result<(), AllocError>
        ensures { IfOk result (λ _. self.new ≡ spec.owner_goes_on (owners.Catch place body caught) self.old.stack self.old self.old.table) }
    {
        let handler = self.table.last();
        self.complete(
            Form::Try {
                body,
                caught,
                handler,
            },
            place,
        )
    }

    // What a block is part of goes on; the block is the last node.
    fn owner_goes_on(&mut self, owner: Owner) -> Result<(), AllocError>
        ensures { IfOk result (λ _. self.new ≡ spec.owner_goes_on owner self.old.stack self.old self.old.table) }
    {
        match owner {
            Owner::Script { functions: _ } => Ok(()),
            Owner::Block => {
                self.completed();
                Ok(())
            }
            Owner::Try { place } => self.try_read(place),
            Owner::Catch {
                place,
                body,
                caught,
            } => self.catch_read(place, body, caught),
            Owner::Function {
                name,
                place,
                parameters,
            } => self.function_read(name, place, parameters),
        }
    }

    fn scope_ended(&mut self, scope: Scope, owner: Owner) -> Result<(), AllocError>
        ensures { IfOk result (λ _. self.new ≡ spec.block_ended_in (opened.Scope scope owner ∷ self.old.stack) self.old) }
    {
        let Scope {
            place,
            declared,
            items,
        } = scope;
        let names = declared.len() as u64;
        self.table.ends(declared)?;
        self.table.add(Form::Block { names, items }, place)?;
        self.owner_goes_on(owner)
    }

    fn block_ended(&mut self) -> Result<(), AllocError>
        ensures { IfOk result (λ _. self.new ≡ spec.block_ended_in self.old.stack self.old) }
    {
        let Some(item) = self.stack.pop() else {
            return Ok(());
        };
        match item {
            Item::Scope { scope, owner } => self.scope_ended(scope, owner),
            other => lost(other),
        }
    }

    fn itemed_word(&mut self, place: u32, word: Word) -> Result<(), AllocError>
        ensures { IfOk result (λ _. self.new ≡ spec.itemed_word self.old place word) }
    {
        match word {
            Word::Function => self.move_to(At::FunctionBegun(place)),
            Word::Let => self.move_to(At::LetBegun(place)),
            Word::Const => self.move_to(At::ConstBegun(place)),
            _ => self.started_word(place, word),
        }
    }

    fn itemed_mark(&mut self, place: u32, mark: Mark) -> Result<(), AllocError>
        ensures { IfOk result (λ _. self.new ≡ spec.itemed_mark self.old place mark) }
    {
        match mark {
            Mark::CloseBrace => self.block_ended(),
            _ => self.started_mark(place, mark),
        }
    }

    // An item begins, or the items end.
    pub(crate) fn itemed(&mut self, place: u32, kind: &TokenKind) -> Result<(), AllocError>
        ensures { IfOk result (λ _. self.new ≡ spec.itemed self.old place kind.now) }
    {
        match kind {
            TokenKind::Word(word) => self.itemed_word(place, *word),
            TokenKind::Mark(mark) => self.itemed_mark(place, *mark),
            _ => self.started(place, kind),
        }
    }

    fn open_try(&mut self, from: u32, place: u32) -> Result<(), AllocError>
        ensures { IfOk result (λ _. self.new ≡ spec.scope_begins (spec.scope_of place []) (owners.Try from) self.old.stack self.old) }
    {
        let declared = PlainList::new(self.alloc());
        self.scope_begins(place, declared, Owner::Try { place: from })
    }

    pub(crate) fn try_begins(
        &mut self,
        from: u32,
        place: u32,
        kind: &TokenKind,
    ) -> Result<(), AllocError>
        ensures { IfOk result (λ _. self.new ≡ spec.try_begins from self.old place kind.now) }
    {
        match kind {
            TokenKind::Mark(Mark::OpenBrace) => self.open_try(from, place),
            _ => Ok(()),
        }
    }

    pub(crate) fn catch_follows(&mut self, kind: &TokenKind) -> Result<(), AllocError>
        ensures { IfOk result (λ _. self.new ≡ spec.catch_follows self.old kind.now) }
    {
        match kind {
            TokenKind::Word(Word::Catch) => self.move_to(At::CatchBegun),
            _ => Ok(()),
        }
    }

    fn open_catch(
        &mut self,
        caught: bool,
        from: u32,
        body: NodeId,
        declared: PlainList<Declared>,
        place: u32,
    ) -> Result<(), AllocError>
        ensures { IfOk result (λ _. self.new ≡ spec.catch_begins caught (opened.Tried from body declared ∷ self.old.stack) self.old place) }
    {
        let owner = Owner::Catch {
            place: from,
            body,
            caught,
        };
        self.scope_begins(place, declared, owner)
    }

    fn catch_begins(&mut self, caught: bool, at_brace: u32) -> Result<(), AllocError>
        ensures { IfOk result (λ _. self.new ≡ spec.catch_begins caught self.old.stack self.old at_brace) }
    {
        let Some(item) = self.stack.pop() else {
            return Ok(());
        };
        match item {
            Item::Tried {
                place,
                body,
                declared,
            } => self.open_catch(caught, place, body, declared, at_brace),
            other => lost(other),
        }
    }

    pub(crate) fn caught(&mut self, place: u32, kind: &TokenKind) -> Result<(), AllocError>
        ensures { IfOk result (λ _. self.new ≡ spec.caught self.old place kind.now) }
    {
        match kind {
            TokenKind::Mark(Mark::OpenBrace) => self.catch_begins(false, place),
            TokenKind::Mark(Mark::OpenParen) => self.move_to(At::CatchOpened),
            _ => Ok(()),
        }
    }

    fn name_catch(
        &mut self,
        from: u32,
        body: NodeId,
        declared: PlainList<Declared>,
        name: &str,
        place: u32,
    ) -> Result<(), AllocError>
        ensures { IfOk result (λ _. self.new ≡ spec.catch_named_in (opened.Tried from body declared ∷ self.old.stack) self.old name.now place) }
    {
        let mut declared = declared;
        declared.push(self.declared_as(Declares::Variable, name, place)?)?;
        self.stack.push(Item::Tried {
            place: from,
            body,
            declared,
        })?;
        self.at = At::CatchNamed;
        Ok(())
    }

    fn catch_named(&mut self, name: &str, at_name: u32) -> Result<(), AllocError>
        ensures { IfOk result (λ _. self.new ≡ spec.catch_named_in self.old.stack self.old name.now at_name) }
    {
        let Some(item) = self.stack.pop() else {
            return Ok(());
        };
        match item {
            Item::Tried {
                place,
                body,
                declared,
            } => self.name_catch(place, body, declared, name, at_name),
            other => lost(other),
        }
    }

    pub(crate) fn catch_opened(&mut self, place: u32, kind: &TokenKind) -> Result<(), AllocError>
        ensures { IfOk result (λ _. self.new ≡ spec.catch_opened self.old place kind.now) }
    {
        match kind {
            TokenKind::Name(name) => self.catch_named(name.as_str(), place),
            _ => Ok(()),
        }
    }

    pub(crate) fn closes_to(&mut self, at: At, kind: &TokenKind) -> Result<(), AllocError>
        ensures { IfOk result (λ _. self.new ≡ spec.closes_to at self.old kind.now) }
    {
        match kind {
            TokenKind::Mark(Mark::CloseParen) => self.move_to(at),
            _ => Ok(()),
        }
    }

    pub(crate) fn catch_closed(&mut self, place: u32, kind: &TokenKind) -> Result<(), AllocError>
        ensures { IfOk result (λ _. self.new ≡ spec.catch_closed self.old place kind.now) }
    {
        match kind {
            TokenKind::Mark(Mark::OpenBrace) => self.catch_begins(true, place),
            _ => Ok(()),
        }
    }
}
