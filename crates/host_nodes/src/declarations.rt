//! `let` and `const`.

ghost use Rattle.std.specs.Prelude.{◌≡◌, [], ◌∷◌, ◌++◌, IfOk};
ghost use Rattle.host_lexer.specs.declared.token.Mark.TheVariants as marks;
ghost use Rattle.host_lexer.specs.declared.token.TokenKind.TheVariants as kinds;
ghost use Rattle.host_nodes.specs.Building as spec;
ghost use Rattle.host_nodes.specs.Tables as tables;
ghost use Rattle.host_nodes.specs.declared.state.Item.TheVariants as opened;

use crate::builder::{Builder, lost};
use crate::form::{Declaration, Declared, Declares, Form, NodeId};
use crate::state::{At, Item, Level, Owner, Scope};
use embed_base::PlainList;
use host_lexer::{Mark, TokenKind};
use std::alloc::AllocError;
use std::mem;

impl Builder {
    pub(crate) fn declared_as(
        &self,
        declares: Declares,
        name: &str,
        place: u32,
    ) -> Result<Declared, AllocError>
        ensures { IfOk result (λ d. d ≡ spec.declared_as declares name.now place) }
    {
        let name = self.shared(name)?;
        Ok(Declared {
            name,
            place,
            declares,
        })
    }

    // A name is declared in a scope.
    pub(crate) fn push_declared(
        &mut self,
        scope: Scope,
        owner: Owner,
        declared: Declared,
    ) -> Result<(), AllocError>
        ensures { IfOk result (λ _. self.new ≡ spec.with_scope (spec.with_declared scope declared) owner self.old) }
    {
        let mut scope = scope;
        scope.declared.push(declared)?;
        self.stack.push(Item::Scope { scope, owner })
    }

    fn declare_in(
        &mut self,
        scope: Scope,
        owner: Owner,
        declares: Declares,
        name: &str,
        place: u32,
        at: At,
    ) -> Result<(), AllocError>
        ensures { IfOk result (λ _. self.new ≡ spec.declared_in (opened.Scope scope owner ∷ self.old.stack) self.old declares name.now place at) }
    {
        let declared = self.declared_as(declares, name, place)?;
        let text = declared.name.clone()?;
        self.push_declared(scope, owner, declared)?;
        self.table.add_name(text, place)?;
        self.at = at;
        Ok(())
    }

    // A name is declared in the scope that is open last.
    fn declare(
        &mut self,
        declares: Declares,
        name: &str,
        place: u32,
        at: At,
    ) -> Result<(), AllocError>
        ensures { IfOk result (λ _. self.new ≡ spec.declared_in self.old.stack self.old declares name.now place at) }
    {
        let Some(item) = self.stack.pop() else {
            return Ok(());
        };
        match item {
            Item::Scope { scope, owner } => {
                self.declare_in(scope, owner, declares, name, place, at)
            }
            other => lost(other),
        }
    }

    pub(crate) fn let_begun(
        &mut self,
        from: u32,
        place: u32,
        kind: &TokenKind,
    ) -> Result<(), AllocError>
        ensures { IfOk result (λ _. self.new ≡ spec.let_begun from self.old place kind.now) }
    {
        match kind {
            TokenKind::Name(name) => self.declare(
                Declares::Variable,
                name.as_str(),
                place,
                At::LetNamed(from),
            ),
            _ => Ok(()),
        }
    }

    pub(crate) fn const_begun(
        &mut self,
        from: u32,
        place: u32,
        kind: &TokenKind,
    ) -> Result<(), AllocError>
        ensures { IfOk result (λ _. self.new ≡ spec.const_begun from self.old place kind.now) }
    {
        match kind {
            TokenKind::Name(name) => self.declare(
                Declares::Constant,
                name.as_str(),
                place,
                At::ConstNamed(from),
            ),
            _ => Ok(()),
        }
    }

    // Moves out the declarations of a `let` or `const`.
    fn take_told(&mut self) -> PlainList<Declaration>
        ensures told { result ≡ self.old.told }
        ensures builder { self.new ≡ spec.with_told [] self.old }
    {
        let alloc = self.alloc();
        mem::replace(&mut self.told, PlainList::new(alloc))
    }

    fn open_let(&mut self, place: u32) -> Result<(), AllocError>
        ensures { IfOk result (λ _. self.new ≡ spec.let_named place self.old (kinds.Mark marks.Equals)) }
    {
        let told = self.take_told();
        let name = self.table.last();
        self.open_with(At::Want, Item::Let { place, told, name })
    }

    fn open_const(&mut self, place: u32) -> Result<(), AllocError>
        ensures { IfOk result (λ _. self.new ≡ spec.const_named place self.old (kinds.Mark marks.Equals)) }
    {
        let told = self.take_told();
        let name = self.table.last();
        self.open_with(At::Want, Item::Const { place, told, name })
    }

    // The last node is a name that is declared with no value.
    fn push_unset(&mut self) -> Result<(), AllocError>
        ensures { IfOk result (λ _. self.new ≡ spec.with_told (self.old.told ++ tables.unset_declaration (tables.last self.old.table) ∷ []) self.old) }
    {
        let name = self.table.last();
        self.told.push(Declaration { name, value: None })
    }

    fn let_goes_on(&mut self, place: u32) -> Result<(), AllocError>
        ensures { IfOk result (λ _. self.new ≡ spec.let_named place self.old (kinds.Mark marks.Comma)) }
    {
        self.push_unset()?;
        self.at = At::LetBegun(place);
        Ok(())
    }

    fn let_ends(&mut self, place: u32) -> Result<(), AllocError>
        ensures { IfOk result (λ _. self.new ≡ spec.let_named place self.old (kinds.Mark marks.Semicolon)) }
    {
        self.push_unset()?;
        let told = self.take_told();
        self.table.add(Form::Let(told), place)?;
        self.next_item()
    }

    pub(crate) fn let_named(&mut self, from: u32, kind: &TokenKind) -> Result<(), AllocError>
        ensures { IfOk result (λ _. self.new ≡ spec.let_named from self.old kind.now) }
    {
        match kind {
            TokenKind::Mark(Mark::Equals) => self.open_let(from),
            TokenKind::Mark(Mark::Comma) => self.let_goes_on(from),
            TokenKind::Mark(Mark::Semicolon) => self.let_ends(from),
            _ => Ok(()),
        }
    }

    pub(crate) fn const_named(&mut self, from: u32, kind: &TokenKind) -> Result<(), AllocError>
        ensures { IfOk result (λ _. self.new ≡ spec.const_named from self.old kind.now) }
    {
        match kind {
            TokenKind::Mark(Mark::Equals) => self.open_const(from),
            _ => Ok(()),
        }
    }

    // The last node is the value of a name that is declared.
    fn with_set(
        &self,
        told: PlainList<Declaration>,
        name: NodeId,
    ) -> Result<PlainList<Declaration>, AllocError>
        ensures { IfOk result (λ ds. ds ≡ told ++ tables.set_declaration name (tables.last self.now.table) ∷ []) }
    {
        let mut told = told;
        let value = Some(self.table.last());
        told.push(Declaration { name, value })?;
        Ok(told)
    }

    pub(crate) fn let_parted(
        &mut self,
        place: u32,
        told: PlainList<Declaration>,
        name: NodeId,
    ) -> Result<(), AllocError>
        ensures { IfOk result (λ _. self.new ≡ spec.parted_in (opened.Let place told name ∷ self.old.stack) self.old (spec.closed_table self.old.level self.old.table)) }
    {
        self.close_level()?;
        self.told = self.with_set(told, name)?;
        self.at = At::LetBegun(place);
        Ok(())
    }

    pub(crate) fn const_parted(
        &mut self,
        place: u32,
        told: PlainList<Declaration>,
        name: NodeId,
    ) -> Result<(), AllocError>
        ensures { IfOk result (λ _. self.new ≡ spec.parted_in (opened.Const place told name ∷ self.old.stack) self.old (spec.closed_table self.old.level self.old.table)) }
    {
        self.close_level()?;
        self.told = self.with_set(told, name)?;
        self.at = At::ConstBegun(place);
        Ok(())
    }

    pub(crate) fn let_ended(
        &mut self,
        place: u32,
        told: PlainList<Declaration>,
        name: NodeId,
    ) -> Result<(), AllocError>
        ensures { IfOk result (λ _. self.new ≡ spec.ended_in (opened.Let place told name ∷ self.old.stack) self.old (spec.closed_table self.old.level self.old.table)) }
    {
        self.close_level()?;
        let told = self.with_set(told, name)?;
        self.table.add(Form::Let(told), place)?;
        self.next_item()
    }

    pub(crate) fn const_ended(
        &mut self,
        place: u32,
        told: PlainList<Declaration>,
        name: NodeId,
    ) -> Result<(), AllocError>
        ensures { IfOk result (λ _. self.new ≡ spec.ended_in (opened.Const place told name ∷ self.old.stack) self.old (spec.closed_table self.old.level self.old.table)) }
    {
        self.close_level()?;
        let told = self.with_set(told, name)?;
        self.table.add(Form::Const(told), place)?;
        self.next_item()
    }
}
