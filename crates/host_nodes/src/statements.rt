//! Statements.

ghost use Rattle.std.specs.Prelude.{◌≡◌, [], ◌∷◌, IfOk};
ghost use Rattle.host_lexer.specs.declared.token.Mark.TheVariants as marks;
ghost use Rattle.host_lexer.specs.declared.token.TokenKind.TheVariants as kinds;
ghost use Rattle.host_lexer.specs.declared.token.Word.TheVariants as words;
ghost use Rattle.host_nodes.specs.Building as spec;
ghost use Rattle.host_nodes.specs.declared.state.Item.TheVariants as opened;

use crate::builder::{Builder, lost};
use crate::form::{Form, NodeId};
use crate::levels::place_or_none;
use crate::stack::Stack;
use crate::state::{At, Item, Owner};
use crate::table::Table;
use embed_base::PlainList;
use host_lexer::{Mark, TokenKind, Word};
use std::alloc::AllocError;

impl Builder {
    fn expression_ended(&mut self) -> Result<(), AllocError>
        ensures { IfOk result (λ _. self.new ≡ spec.ended_in (opened.Expression ∷ self.old.stack) self.old (spec.closed_table self.old.level self.old.table)) }
    {
        let place = place_or_none(self.level.first);
        self.close_level()?;
        let value = self.table.last();
        self.complete(Form::Expression(value), place)
    }

    fn assign_ended(&mut self, target: NodeId, place: u32) -> Result<(), AllocError>
        ensures { IfOk result (λ _. self.new ≡ spec.ended_in (opened.Assign target place ∷ self.old.stack) self.old (spec.closed_table self.old.level self.old.table)) }
    {
        self.close_level()?;
        let value = self.table.last();
        self.complete(Form::Assign { target, value }, place)
    }

    fn return_ended(&mut self, place: u32) -> Result<(), AllocError>
        ensures { IfOk result (λ _. self.new ≡ spec.ended_in (opened.Return place ∷ self.old.stack) self.old (spec.closed_table self.old.level self.old.table)) }
    {
        self.close_level()?;
        let value = self.table.last();
        self.complete(Form::Return(Some(value)), place)
    }

    fn throw_ended(&mut self, place: u32) -> Result<(), AllocError>
        ensures { IfOk result (λ _. self.new ≡ spec.ended_in (opened.Throw place ∷ self.old.stack) self.old (spec.closed_table self.old.level self.old.table)) }
    {
        self.close_level()?;
        let value = self.table.last();
        self.complete(Form::Throw(value), place)
    }

    // `;` after an expression.
    pub(crate) fn ended_here(&mut self) -> Result<(), AllocError>
        ensures { IfOk result (λ _. self.new ≡ spec.ended_in self.old.stack self.old (spec.closed_table self.old.level self.old.table)) }
    {
        let Some(item) = self.stack.pop() else {
            return Ok(());
        };
        match item {
            Item::Expression => self.expression_ended(),
            Item::Assign { target, place } => self.assign_ended(target, place),
            Item::Return { place } => self.return_ended(place),
            Item::Throw { place } => self.throw_ended(place),
            Item::Let { place, told, name } => self.let_ended(place, told, name),
            Item::Const { place, told, name } => self.const_ended(place, told, name),
            other => lost(other),
        }
    }

    fn open_assign(&mut self) -> Result<(), AllocError>
        ensures { IfOk result (λ _. self.new ≡ spec.equated_in (opened.Expression ∷ self.old.stack) self.old) }
    {
        let target = self.table.last();
        let place = place_or_none(self.level.first);
        self.open_with(At::Want, Item::Assign { target, place })
    }

    // `=` after an operand.
    pub(crate) fn equated(&mut self) -> Result<(), AllocError>
        ensures { IfOk result (λ _. self.new ≡ spec.equated_in self.old.stack self.old) }
    {
        let Some(item) = self.stack.pop() else {
            return Ok(());
        };
        match item {
            Item::Expression => self.open_assign(),
            other => lost(other),
        }
    }

    fn expression_word(&mut self, place: u32, word: Word) -> Result<(), AllocError>
        ensures { IfOk result (λ _. self.new ≡ spec.wanted_word (spec.in_statement opened.Expression self.old) place word) }
    {
        self.stack.push(Item::Expression)?;
        self.wanted_word(place, word)
    }

    pub(crate) fn started_word(&mut self, place: u32, word: Word) -> Result<(), AllocError>
        ensures { IfOk result (λ _. self.new ≡ spec.started_word self.old place word) }
    {
        match word {
            Word::If => self.move_to(At::IfBegun(place)),
            Word::While => self.move_to(At::WhileBegun(place)),
            Word::Break => self.move_to(At::BreakBegun(place)),
            Word::Continue => self.move_to(At::ContinueBegun(place)),
            Word::Return => self.move_to(At::ReturnBegun(place)),
            Word::Throw => self.move_to(At::ThrowBegun(place)),
            Word::Try => self.move_to(At::TryBegun(place)),
            _ => self.expression_word(place, word),
        }
    }

    fn expression_mark(&mut self, place: u32, mark: Mark) -> Result<(), AllocError>
        ensures { IfOk result (λ _. self.new ≡ spec.wanted_mark (spec.in_statement opened.Expression self.old) place mark) }
    {
        self.stack.push(Item::Expression)?;
        self.wanted_mark(place, mark)
    }

    fn open_block(&mut self, place: u32) -> Result<(), AllocError>
        ensures { IfOk result (λ _. self.new ≡ spec.started_mark self.old place marks.OpenBrace) }
    {
        let declared = PlainList::new(self.alloc());
        self.scope_begins(place, declared, Owner::Block)
    }

    pub(crate) fn started_mark(&mut self, place: u32, mark: Mark) -> Result<(), AllocError>
        ensures { IfOk result (λ _. self.new ≡ spec.started_mark self.old place mark) }
    {
        match mark {
            Mark::Semicolon => self.complete(Form::Empty, place),
            Mark::OpenBrace => self.open_block(place),
            _ => self.expression_mark(place, mark),
        }
    }

    pub(crate) fn started(&mut self, place: u32, kind: &TokenKind) -> Result<(), AllocError>
        ensures { IfOk result (λ _. self.new ≡ spec.started self.old place kind.now) }
    {
        match kind {
            TokenKind::Word(word) => self.started_word(place, *word),
            TokenKind::Mark(mark) => self.started_mark(place, *mark),
            _ => self.wanted_in(Item::Expression, place, kind),
        }
    }

    fn settle(&mut self, is_else: bool) -> Result<(), AllocError>
        ensures { IfOk result (λ _. self.new ≡ spec.settled_in is_else self.old) }
    {
        settle(&mut self.table, &mut self.stack, is_else)
    }

    fn open_else(&mut self, place: u32, test: NodeId) -> Result<(), AllocError>
        ensures { IfOk result (λ _. self.new ≡ spec.else_goes_on (opened.Then place test ∷ self.old.stack) self.old self.old.table) }
    {
        let then = self.table.last();
        self.open_with(At::Begun, Item::Else { place, test, then })
    }

    fn else_goes_on(&mut self) -> Result<(), AllocError>
        ensures { IfOk result (λ _. self.new ≡ spec.else_goes_on self.old.stack self.old self.old.table) }
    {
        let Some(item) = self.stack.pop() else {
            return Ok(());
        };
        match item {
            Item::Then { place, test } => self.open_else(place, test),
            other => lost(other),
        }
    }

    fn else_follows(&mut self) -> Result<(), AllocError>
        ensures { IfOk result (λ _. self.new ≡ spec.after self.old 0 (kinds.Word words.Else)) }
    {
        self.settle(true)?;
        self.else_goes_on()
    }

    // Statements end that ended so far, and the item too.
    pub(crate) fn item_ended(&mut self) -> Result<(), AllocError>
        ensures { IfOk result (λ _. self.new ≡ spec.item_ended self.old) }
    {
        self.settle(false)?;
        self.next_item()
    }

    fn after_item(&mut self, place: u32, kind: &TokenKind) -> Result<(), AllocError>
        ensures { IfOk result (λ _. self.new ≡ spec.itemed (spec.item_ended self.old) place kind.now) }
    {
        self.item_ended()?;
        self.itemed(place, kind)
    }

    pub(crate) fn after(&mut self, place: u32, kind: &TokenKind) -> Result<(), AllocError>
        ensures { IfOk result (λ _. self.new ≡ spec.after self.old place kind.now) }
    {
        match kind {
            TokenKind::Word(Word::Else) => self.else_follows(),
            _ => self.after_item(place, kind),
        }
    }

    pub(crate) fn test_begins(&mut self, item: Item, kind: &TokenKind) -> Result<(), AllocError>
        ensures { IfOk result (λ _. self.new ≡ spec.test_begins item self.old kind.now) }
    {
        match kind {
            TokenKind::Mark(Mark::OpenParen) => self.open_with(At::Want, item),
            _ => Ok(()),
        }
    }

    pub(crate) fn left_by(
        &mut self,
        form: Form,
        place: u32,
        kind: &TokenKind,
    ) -> Result<(), AllocError>
        ensures { IfOk result (λ _. self.new ≡ spec.left_by form place self.old kind.now) }
    {
        match kind {
            TokenKind::Mark(Mark::Semicolon) => self.complete(form, place),
            _ => Ok(()),
        }
    }

    pub(crate) fn returned(
        &mut self,
        from: u32,
        place: u32,
        kind: &TokenKind,
    ) -> Result<(), AllocError>
        ensures { IfOk result (λ _. self.new ≡ spec.returned from self.old place kind.now) }
    {
        match kind {
            TokenKind::Mark(Mark::Semicolon) => self.complete(Form::Return(None), from),
            _ => self.wanted_in(Item::Return { place: from }, place, kind),
        }
    }
}

// Statements end before an `else`, or before another token, since what they are the last part of ends.
fn settle(table: &mut Table, stack: &mut Stack<Item>, is_else: bool) -> Result<(), AllocError>
    ensures { IfOk result (λ _. spec.settled is_else stack.old table.old ≡ spec.settled_at stack.new table.new) }
{
    while let Some(item) = stack.pop() {
        if let Some(other) = settle_in(table, item, is_else)? {
            return stack.push(other);
        }
    }
    Ok(())
}

// The last node ends what it's the last part of. What goes on is given back.
fn settle_in(table: &mut Table, item: Item, is_else: bool) -> Result<Option<Item>, AllocError>
    ensures { IfOk result (λ back. spec.Settles is_else item table.old back table.new) }
{
    match item {
        Item::Then { place, test } => settle_then(table, place, test, is_else),
        Item::Else { place, test, then } => {
            let other = table.last();
            table.add(Form::IfElse { test, then, other }, place)?;
            Ok(None)
        }
        Item::Body { place, test } => {
            let body = table.last();
            table.add(Form::While { test, body }, place)?;
            Ok(None)
        }
        _ => Ok(Some(item)),
    }
}

fn settle_then(
    table: &mut Table,
    place: u32,
    test: NodeId,
    is_else: bool,
) -> Result<Option<Item>, AllocError>
    ensures { IfOk result (λ back. spec.Settles is_else (opened.Then place test) table.old back table.new) }
{
    if is_else {
        return Ok(Some(Item::Then { place, test }));
    }
    let then = table.last();
    table.add(Form::If { test, then }, place)?;
    Ok(None)
}
