//! Where an operand is wanted, and after one.

ghost use Rattle.std.specs.Prelude.{◌≡◌, IfOk};
ghost use Rattle.host_nodes.specs.Building as spec;
ghost use Rattle.host_nodes.specs.Tables as tables;
ghost use Rattle.host_lexer.specs.declared.token.Mark.TheVariants as marks;
ghost use Rattle.host_lexer.specs.declared.token.TokenKind.TheVariants as kinds;
ghost use Rattle.host_lexer.specs.declared.token.Word.TheVariants as words;

use crate::builder::Builder;
use crate::form::{Form, Operand, PrefixOperator};
use crate::levels::{close_prefixes, join, ranked_of, tighten};
use crate::stack::Stack;
use crate::state::{At, Item, Level, ObjectSoFar, Ranked};
use crate::words::word_text;
use embed_base::{PlainList, SharedString};
use host_lexer::{Mark, TokenKind, Word};
use std::alloc::AllocError;

impl Builder {
    // An operand is read, whose node is added already.
    fn have(&mut self, place: u32)
        ensures { self.new ≡ spec.have self.old place self.old.table }
    {
        self.level.begin(place);
        self.at = At::Have;
    }

    fn have_node(&mut self, form: Form, place: u32) -> Result<(), AllocError>
        ensures { IfOk result (λ _. self.new ≡ spec.have self.old place (tables.add form place self.old.table)) }
    {
        self.table.add(form, place)?;
        self.have(place);
        Ok(())
    }

    fn have_name(&mut self, name: &str, place: u32) -> Result<(), AllocError>
        ensures { IfOk result (λ _. self.new ≡ spec.have self.old place (tables.add_name name.now place self.old.table)) }
    {
        let text = self.shared(name)?;
        self.table.add_name(text, place)?;
        self.have(place);
        Ok(())
    }

    fn have_text(&mut self, text: &str, place: u32) -> Result<(), AllocError>
        ensures { IfOk result (λ _. self.new ≡ spec.wanted self.old place (kinds.Text text.now)) }
    {
        let text = self.shared(text)?;
        self.have_node(Form::Text(text), place)
    }

    fn prefix(&mut self, operator: PrefixOperator, place: u32) -> Result<(), AllocError>
        ensures { IfOk result (λ _. self.new ≡ spec.prefix_read operator place self.old) }
    {
        self.level.add_prefix(operator, place)?;
        self.at = At::Want;
        Ok(())
    }

    fn begin_new(&mut self, place: u32)
        ensures { self.new ≡ spec.wanted_word self.old place words.New }
    {
        self.level.begin(place);
        self.at = At::NewBegun;
    }

    pub(crate) fn wanted_word(&mut self, place: u32, word: Word) -> Result<(), AllocError>
        ensures { IfOk result (λ _. self.new ≡ spec.wanted_word self.old place word) }
    {
        match word {
            Word::True => self.have_node(Form::Boolean(true), place),
            Word::False => self.have_node(Form::Boolean(false), place),
            Word::Null => self.have_node(Form::Null, place),
            Word::Undefined => self.have_node(Form::Undefined, place),
            Word::TypeOf => self.prefix(PrefixOperator::TypeOf, place),
            Word::New => {
                self.begin_new(place);
                Ok(())
            }
            _ => Ok(()),
        }
    }

    fn open_paren(&mut self, place: u32) -> Result<(), AllocError>
        ensures { IfOk result (λ _. self.new ≡ spec.wanted_mark self.old place marks.OpenParen) }
    {
        let level = self.begun_level(place);
        self.open_with(At::Want, Item::Paren { level })
    }

    fn open_array(&mut self, place: u32) -> Result<(), AllocError>
        ensures { IfOk result (λ _. self.new ≡ spec.wanted_mark self.old place marks.OpenBracket) }
    {
        let level = self.begun_level(place);
        let elements = PlainList::new(self.alloc());
        self.open_with(
            At::Element,
            Item::Array {
                place,
                elements,
                level,
            },
        )
    }

    fn open_object(&mut self, place: u32) -> Result<(), AllocError>
        ensures { IfOk result (λ _. self.new ≡ spec.wanted_mark self.old place marks.OpenBrace) }
    {
        let object = ObjectSoFar {
            place,
            properties: PlainList::new(self.alloc()),
            level: self.begun_level(place),
        };
        self.open_with(At::Property, Item::Object { object })
    }

    pub(crate) fn wanted_mark(&mut self, place: u32, mark: Mark) -> Result<(), AllocError>
        ensures { IfOk result (λ _. self.new ≡ spec.wanted_mark self.old place mark) }
    {
        match mark {
            Mark::Minus => self.prefix(PrefixOperator::Negative, place),
            Mark::Not => self.prefix(PrefixOperator::Not, place),
            Mark::OpenParen => self.open_paren(place),
            Mark::OpenBracket => self.open_array(place),
            Mark::OpenBrace => self.open_object(place),
            _ => Ok(()),
        }
    }

    pub(crate) fn wanted(&mut self, place: u32, kind: &TokenKind) -> Result<(), AllocError>
        ensures { IfOk result (λ _. self.new ≡ spec.wanted self.old place kind.now) }
    {
        match kind {
            TokenKind::Name(name) => self.have_name(name.as_str(), place),
            TokenKind::Number(value) => self.have_node(Form::Number(*value), place),
            TokenKind::BigInt(value) => self.have_node(Form::BigInt(*value), place),
            TokenKind::Text(text) => self.have_text(text.as_str(), place),
            TokenKind::Word(word) => self.wanted_word(place, *word),
            TokenKind::Mark(mark) => self.wanted_mark(place, *mark),
        }
    }

    // An expression begins within something that is opened.
    pub(crate) fn wanted_in(
        &mut self,
        item: Item,
        place: u32,
        kind: &TokenKind,
    ) -> Result<(), AllocError>
        ensures { IfOk result (λ _. self.new ≡ spec.wanted (spec.in_statement item self.old) place kind.now) }
    {
        self.stack.push(item)?;
        self.wanted(place, kind)
    }

    // An operator after the last node.
    fn operate(&mut self, ranked: Ranked, place: u32) -> Result<(), AllocError>
        ensures { IfOk result (λ _. self.new ≡ spec.operated_by ranked place self.old) }
    {
        let alloc = self.alloc();
        let Level {
            groups,
            prefixes,
            first,
        } = self.take_level();
        close_prefixes(&mut self.table, prefixes)?;
        let mut groups = tighten(&mut self.table, ranked.rank, groups)?;
        let operand = Operand {
            node: self.table.last(),
            operator: ranked.operator,
            place,
        };
        join(alloc, ranked.rank, operand, &mut groups)?;
        self.level = Level {
            groups,
            prefixes: Stack::new(alloc),
            first,
        };
        self.at = At::Want;
        Ok(())
    }

    fn operated(&mut self, place: u32, mark: Mark) -> Result<(), AllocError>
        ensures { IfOk result (λ _. self.new ≡ spec.operated self.old place mark) }
    {
        match ranked_of(mark) {
            None => Ok(()),
            Some(ranked) => self.operate(ranked, place),
        }
    }

    fn open_index(&mut self, place: u32) -> Result<(), AllocError>
        ensures { IfOk result (λ _. self.new ≡ spec.had_mark self.old place marks.OpenBracket) }
    {
        let object = self.table.last();
        let level = self.take_level();
        self.open_with(
            At::Want,
            Item::Index {
                object,
                place,
                level,
            },
        )
    }

    fn open_call(&mut self, place: u32) -> Result<(), AllocError>
        ensures { IfOk result (λ _. self.new ≡ spec.had_mark self.old place marks.OpenParen) }
    {
        let callee = self.table.last();
        let arguments = PlainList::new(self.alloc());
        let level = self.take_level();
        self.open_with(
            At::Argument,
            Item::Call {
                callee,
                place,
                arguments,
                level,
            },
        )
    }

    fn had_mark(&mut self, place: u32, mark: Mark) -> Result<(), AllocError>
        ensures { IfOk result (λ _. self.new ≡ spec.had_mark self.old place mark) }
    {
        match mark {
            Mark::Dot => self.move_to(At::Dotted(place)),
            Mark::OpenBracket => self.open_index(place),
            Mark::OpenParen => self.open_call(place),
            Mark::CloseParen => self.closed(),
            Mark::CloseBracket => self.bracketed(),
            Mark::CloseBrace => self.braced(),
            Mark::Comma => self.parted(),
            Mark::Semicolon => self.ended_here(),
            Mark::Equals => self.equated(),
            _ => self.operated(place, mark),
        }
    }

    pub(crate) fn had(&mut self, place: u32, kind: &TokenKind) -> Result<(), AllocError>
        ensures { IfOk result (λ _. self.new ≡ spec.had self.old place kind.now) }
    {
        match kind {
            TokenKind::Mark(mark) => self.had_mark(place, *mark),
            _ => Ok(()),
        }
    }

    // A member of the last node.
    fn member(&mut self, key: SharedString, place: u32, at: At) -> Result<(), AllocError>
        ensures { IfOk result (λ _. self.new ≡ spec.with_member key place at self.old) }
    {
        let object = self.table.last();
        self.table.add(Form::Member { object, key }, place)?;
        self.at = at;
        Ok(())
    }

    fn member_named(&mut self, text: &str, place: u32, at: At) -> Result<(), AllocError>
        ensures { IfOk result (λ _. self.new ≡ spec.with_member text.now place at self.old) }
    {
        let key = self.shared(text)?;
        self.member(key, place, at)
    }

    pub(crate) fn membered(
        &mut self,
        at: At,
        place: u32,
        kind: &TokenKind,
    ) -> Result<(), AllocError>
        ensures { IfOk result (λ _. self.new ≡ spec.membered at place self.old kind.now) }
    {
        match kind {
            TokenKind::Name(name) => self.member_named(name.as_str(), place, at),
            TokenKind::Word(word) => self.member_named(word_text(*word), place, at),
            _ => Ok(()),
        }
    }

    fn name_new(&mut self, name: &str, place: u32) -> Result<(), AllocError>
        ensures { IfOk result (λ _. self.new ≡ spec.newly_begun self.old place (kinds.Name name.now)) }
    {
        let text = self.shared(name)?;
        self.table.add_name(text, place)?;
        self.at = At::NewNamed;
        Ok(())
    }

    pub(crate) fn newly_begun(&mut self, place: u32, kind: &TokenKind) -> Result<(), AllocError>
        ensures { IfOk result (λ _. self.new ≡ spec.newly_begun self.old place kind.now) }
    {
        match kind {
            TokenKind::Name(name) => self.name_new(name.as_str(), place),
            _ => Ok(()),
        }
    }

    fn open_new(&mut self, place: u32) -> Result<(), AllocError>
        ensures { IfOk result (λ _. self.new ≡ spec.newly_named self.old place (kinds.Mark marks.OpenParen)) }
    {
        let class = self.table.last();
        let arguments = PlainList::new(self.alloc());
        let level = self.take_level();
        self.open_with(
            At::Given,
            Item::New {
                class,
                place,
                arguments,
                level,
            },
        )
    }

    pub(crate) fn newly_named(&mut self, place: u32, kind: &TokenKind) -> Result<(), AllocError>
        ensures { IfOk result (λ _. self.new ≡ spec.newly_named self.old place kind.now) }
    {
        match kind {
            TokenKind::Mark(Mark::Dot) => self.move_to(At::NewDotted(place)),
            TokenKind::Mark(Mark::OpenParen) => self.open_new(place),
            _ => Ok(()),
        }
    }
}
