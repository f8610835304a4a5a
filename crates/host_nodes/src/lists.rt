//! Where an expression or a list ends.

ghost use Rattle.std.specs.Prelude.{◌≡◌, [], ◌∷◌, ◌++◌, IfOk};
ghost use Rattle.host_nodes.specs.Building as spec;
ghost use Rattle.host_nodes.specs.declared.state.Item.TheVariants as opened;

use crate::builder::{Builder, lost};
use crate::form::{Declaration, Form, NodeId};
use crate::state::{At, Item, Level};
use embed_base::PlainList;
use host_lexer::{Mark, TokenKind};
use std::alloc::AllocError;

impl Builder {
    fn paren_closed(&mut self, level: Level) -> Result<(), AllocError>
        ensures { IfOk result (λ _. self.new ≡ spec.closed_in (opened.Paren level ∷ self.old.stack) self.old (spec.closed_table self.old.level self.old.table)) }
    {
        self.close_level()?;
        self.resume(level);
        Ok(())
    }

    fn call_closed(
        &mut self,
        callee: NodeId,
        place: u32,
        arguments: PlainList<NodeId>,
        level: Level,
    ) -> Result<(), AllocError>
        ensures { IfOk result (λ _. self.new ≡ spec.closed_in (opened.Call callee place arguments level ∷ self.old.stack) self.old (spec.closed_table self.old.level self.old.table)) }
    {
        self.close_level()?;
        let arguments = self.with_last(arguments)?;
        self.resume_with(Form::Call { callee, arguments }, place, level)
    }

    fn new_closed(
        &mut self,
        class: NodeId,
        place: u32,
        arguments: PlainList<NodeId>,
        level: Level,
    ) -> Result<(), AllocError>
        ensures { IfOk result (λ _. self.new ≡ spec.closed_in (opened.New class place arguments level ∷ self.old.stack) self.old (spec.closed_table self.old.level self.old.table)) }
    {
        self.close_level()?;
        let arguments = self.with_last(arguments)?;
        self.resume_with(Form::New { class, arguments }, place, level)
    }

    fn if_test_closed(&mut self, place: u32) -> Result<(), AllocError>
        ensures { IfOk result (λ _. self.new ≡ spec.closed_in (opened.IfTest place ∷ self.old.stack) self.old (spec.closed_table self.old.level self.old.table)) }
    {
        self.close_level()?;
        let test = self.table.last();
        self.open_with(At::Begun, Item::Then { place, test })
    }

    fn while_test_closed(&mut self, place: u32) -> Result<(), AllocError>
        ensures { IfOk result (λ _. self.new ≡ spec.closed_in (opened.WhileTest place ∷ self.old.stack) self.old (spec.closed_table self.old.level self.old.table)) }
    {
        self.close_level()?;
        let test = self.table.last();
        self.open_with(At::Begun, Item::Body { place, test })
    }

    // `)` after an expression.
    pub(crate) fn closed(&mut self) -> Result<(), AllocError>
        ensures { IfOk result (λ _. self.new ≡ spec.closed_in self.old.stack self.old (spec.closed_table self.old.level self.old.table)) }
    {
        let Some(item) = self.stack.pop() else {
            return Ok(());
        };
        match item {
            Item::Paren { level } => self.paren_closed(level),
            Item::Call {
                callee,
                place,
                arguments,
                level,
            } => self.call_closed(callee, place, arguments, level),
            Item::New {
                class,
                place,
                arguments,
                level,
            } => self.new_closed(class, place, arguments, level),
            Item::IfTest { place } => self.if_test_closed(place),
            Item::WhileTest { place } => self.while_test_closed(place),
            other => lost(other),
        }
    }

    fn index_closed(&mut self, object: NodeId, place: u32, level: Level) -> Result<(), AllocError>
        ensures { IfOk result (λ _. self.new ≡ spec.bracketed_in (opened.Index object place level ∷ self.old.stack) self.old (spec.closed_table self.old.level self.old.table)) }
    {
        self.close_level()?;
        let key = self.table.last();
        self.resume_with(Form::Index { object, key }, place, level)
    }

    fn array_closed(
        &mut self,
        place: u32,
        elements: PlainList<NodeId>,
        level: Level,
    ) -> Result<(), AllocError>
        ensures { IfOk result (λ _. self.new ≡ spec.bracketed_in (opened.Array place elements level ∷ self.old.stack) self.old (spec.closed_table self.old.level self.old.table)) }
    {
        self.close_level()?;
        let elements = self.with_last(elements)?;
        self.resume_with(Form::Array(elements), place, level)
    }

    // `]` after an expression.
    pub(crate) fn bracketed(&mut self) -> Result<(), AllocError>
        ensures { IfOk result (λ _. self.new ≡ spec.bracketed_in self.old.stack self.old (spec.closed_table self.old.level self.old.table)) }
    {
        let Some(item) = self.stack.pop() else {
            return Ok(());
        };
        match item {
            Item::Index {
                object,
                place,
                level,
            } => self.index_closed(object, place, level),
            Item::Array {
                place,
                elements,
                level,
            } => self.array_closed(place, elements, level),
            other => lost(other),
        }
    }

    fn call_parted(
        &mut self,
        callee: NodeId,
        place: u32,
        arguments: PlainList<NodeId>,
        level: Level,
    ) -> Result<(), AllocError>
        ensures { IfOk result (λ _. self.new ≡ spec.parted_in (opened.Call callee place arguments level ∷ self.old.stack) self.old (spec.closed_table self.old.level self.old.table)) }
    {
        self.close_level()?;
        let arguments = self.with_last(arguments)?;
        self.open_with(
            At::Argument,
            Item::Call {
                callee,
                place,
                arguments,
                level,
            },
        )
    }

    fn new_parted(
        &mut self,
        class: NodeId,
        place: u32,
        arguments: PlainList<NodeId>,
        level: Level,
    ) -> Result<(), AllocError>
        ensures { IfOk result (λ _. self.new ≡ spec.parted_in (opened.New class place arguments level ∷ self.old.stack) self.old (spec.closed_table self.old.level self.old.table)) }
    {
        self.close_level()?;
        let arguments = self.with_last(arguments)?;
        self.open_with(
            At::Given,
            Item::New {
                class,
                place,
                arguments,
                level,
            },
        )
    }

    fn array_parted(
        &mut self,
        place: u32,
        elements: PlainList<NodeId>,
        level: Level,
    ) -> Result<(), AllocError>
        ensures { IfOk result (λ _. self.new ≡ spec.parted_in (opened.Array place elements level ∷ self.old.stack) self.old (spec.closed_table self.old.level self.old.table)) }
    {
        self.close_level()?;
        let elements = self.with_last(elements)?;
        self.open_with(
            At::Element,
            Item::Array {
                place,
                elements,
                level,
            },
        )
    }

    // `,` after an expression.
    pub(crate) fn parted(&mut self) -> Result<(), AllocError>
        ensures { IfOk result (λ _. self.new ≡ spec.parted_in self.old.stack self.old (spec.closed_table self.old.level self.old.table)) }
    {
        let Some(item) = self.stack.pop() else {
            return Ok(());
        };
        match item {
            Item::Call {
                callee,
                place,
                arguments,
                level,
            } => self.call_parted(callee, place, arguments, level),
            Item::New {
                class,
                place,
                arguments,
                level,
            } => self.new_parted(class, place, arguments, level),
            Item::Array {
                place,
                elements,
                level,
            } => self.array_parted(place, elements, level),
            Item::Keyed { object, key, place } => self.property_parted(object, key, place),
            Item::Let { place, told, name } => self.let_parted(place, told, name),
            Item::Const { place, told, name } => self.const_parted(place, told, name),
            other => lost(other),
        }
    }

    // The end of a list that has no expression before it.
    pub(crate) fn list_closed(&mut self) -> Result<(), AllocError>
        ensures { IfOk result (λ _. self.new ≡ spec.list_closed self.old.stack self.old) }
    {
        let Some(item) = self.stack.pop() else {
            return Ok(());
        };
        match item {
            Item::Call {
                callee,
                place,
                arguments,
                level,
            } => self.resume_with(Form::Call { callee, arguments }, place, level),
            Item::New {
                class,
                place,
                arguments,
                level,
            } => self.resume_with(Form::New { class, arguments }, place, level),
            Item::Array {
                place,
                elements,
                level,
            } => self.resume_with(Form::Array(elements), place, level),
            Item::Object { object } => self.object_ended(object),
            other => lost(other),
        }
    }

    pub(crate) fn argued(&mut self, place: u32, kind: &TokenKind) -> Result<(), AllocError>
        ensures { IfOk result (λ _. self.new ≡ spec.argued self.old place kind.now) }
    {
        match kind {
            TokenKind::Mark(Mark::CloseParen) => self.list_closed(),
            _ => self.wanted(place, kind),
        }
    }

    pub(crate) fn elemented(&mut self, place: u32, kind: &TokenKind) -> Result<(), AllocError>
        ensures { IfOk result (λ _. self.new ≡ spec.elemented self.old place kind.now) }
    {
        match kind {
            TokenKind::Mark(Mark::CloseBracket) => self.list_closed(),
            _ => self.wanted(place, kind),
        }
    }
}
