ghost use Rattle.std.specs.Prelude.{◌≡◌, ◌∷◌, IfOk, true};
ghost use Rattle.host_states.specs.Moves as spec;
ghost use Rattle.host_states.specs.Moves.{Moves};
ghost use Rattle.host_states.specs.Stacks.{rest_of};
ghost use Rattle.host_states.specs.declared.state.InExpression.TheVariants as at;
ghost use Rattle.host_lexer.specs.declared.token.Mark.TheVariants as marks;
ghost use Rattle.host_states.specs.declared.state.Open.TheVariants as opens;
ghost use Rattle.host_lexer.specs.declared.token.Word.TheVariants as words;

use crate::reader::{Reader, deeper, fresh};
use crate::state::{Around, InExpression, InStatement, Level, Move, Open};
use host_lexer::{Mark, TokenKind, Word};
use std::alloc::AllocError;

fn is_operator(mark: Mark) -> bool
    ensures { result ≡ spec.is_operator mark }
{
    match mark {
        Mark::Star => true,
        Mark::Slash => true,
        Mark::Percent => true,
        Mark::Plus => true,
        Mark::Minus => true,
        Mark::Less => true,
        Mark::Greater => true,
        Mark::LessEquals => true,
        Mark::GreaterEquals => true,
        Mark::StrictEquals => true,
        Mark::StrictNotEquals => true,
        Mark::And => true,
        Mark::Or => true,
        _ => false,
    }
}

impl Reader {
    pub(crate) fn prefix(&mut self, level: Level) -> Move
        ensures { Moves (spec.prefixes level self.old.stack) result self.new }
    {
        let Some(depth) = deeper(level.depth) else {
            return Move::TooDeep;
        };
        let inner = Level {
            bare: false,
            base: level.base,
            depth,
        };
        self.expression(InExpression::Want, inner)
    }

    pub(crate) fn wanted_word(&mut self, level: Level, word: Word) -> Move
        ensures { Moves (spec.wanted_word level self.old.stack word) result self.new }
    {
        match word {
            Word::True => self.expression(InExpression::Have, level),
            Word::False => self.expression(InExpression::Have, level),
            Word::Null => self.expression(InExpression::Have, level),
            Word::Undefined => self.expression(InExpression::Have, level),
            Word::TypeOf => self.prefix(level),
            Word::New => self.begin_new(level),
            _ => Move::Refused,
        }
    }

    pub(crate) fn begin_new(&mut self, level: Level) -> Move
        ensures { Moves (spec.wanted_word level self.old.stack words.New) result self.new }
    {
        if deeper(level.depth).is_none() {
            return Move::TooDeep;
        }
        self.expression(InExpression::NewBegun, level)
    }

    pub(crate) fn wanted_mark(&mut self, level: Level, mark: Mark) -> Result<Move, AllocError>
        ensures { IfOk result (λ m. Moves (spec.wanted_mark level self.old.stack mark) m self.new) }
    {
        match mark {
            Mark::Minus => Ok(self.prefix(level)),
            Mark::Not => Ok(self.prefix(level)),
            Mark::OpenParen => self.enter(level.depth, InExpression::Want, Open::Paren(level)),
            Mark::OpenBracket => self.enter(level.depth, InExpression::Element, Open::Array(level)),
            Mark::OpenBrace => self.enter(level.depth, InExpression::Property, Open::Object(level)),
            _ => Ok(Move::Refused),
        }
    }

    pub(crate) fn wanted(&mut self, level: Level, kind: &TokenKind) -> Result<Move, AllocError>
        ensures { IfOk result (λ m. Moves (spec.wanted level self.old.stack kind.now) m self.new) }
    {
        match kind {
            TokenKind::Name(_) => Ok(self.expression(InExpression::Target, level)),
            TokenKind::Number(_) => Ok(self.expression(InExpression::Have, level)),
            TokenKind::BigInt(_) => Ok(self.expression(InExpression::Have, level)),
            TokenKind::Text(_) => Ok(self.expression(InExpression::Have, level)),
            TokenKind::Word(word) => Ok(self.wanted_word(level, *word)),
            TokenKind::Mark(mark) => self.wanted_mark(level, *mark),
        }
    }

    pub(crate) fn closed(&mut self) -> Move
        ensures { Moves (spec.closed self.old.stack) result self.new }
    {
        match self.stack.pop() {
            Some(Open::Paren(level)) => self.expression(InExpression::Have, level),
            Some(Open::Call(level)) => self.expression(InExpression::Have, level),
            Some(Open::New(level)) => self.expression(InExpression::Have, level),
            Some(Open::If(around)) => self.statement(InStatement::Begun, around),
            Some(Open::While(around)) => self.statement(InStatement::Begun, around),
            _ => Move::Refused,
        }
    }

    pub(crate) fn bracketed(&mut self) -> Move
        ensures { Moves (spec.bracketed self.old.stack) result self.new }
    {
        match self.stack.pop() {
            Some(Open::Index(level)) => self.expression(InExpression::Target, level),
            Some(Open::Array(level)) => self.expression(InExpression::Have, level),
            _ => Move::Refused,
        }
    }

    pub(crate) fn braced(&mut self) -> Move
        ensures { Moves (spec.braced self.old.stack) result self.new }
    {
        match self.stack.pop() {
            Some(Open::Object(level)) => self.expression(InExpression::Have, level),
            _ => Move::Refused,
        }
    }

    // The next element of a list or an object, at the depth of what is in it.
    pub(crate) fn next(&mut self, at: InExpression, level: Level) -> Move
        ensures { Moves (spec.went (spec.in_expression at (spec.fresh_at level.base) self.old.stack)) result self.new }
    {
        self.expression(at, fresh(level.base))
    }

    pub(crate) fn parted(&mut self, level: Level) -> Move
        ensures { Moves (spec.parted level self.old.stack) result self.new }
    {
        match self.stack.top() {
            Some(Open::Call(_)) => self.next(InExpression::Argument, level),
            Some(Open::New(_)) => self.next(InExpression::Given, level),
            Some(Open::Array(_)) => self.next(InExpression::Element, level),
            Some(Open::Object(_)) => self.next(InExpression::Property, level),
            Some(Open::Let(around)) => self.leave(InStatement::LetBegun, around),
            Some(Open::Const(around)) => self.leave(InStatement::ConstBegun, around),
            _ => Move::Refused,
        }
    }

    // The top is left for a statement.
    pub(crate) fn leave(&mut self, at: InStatement, around: Around) -> Move
        ensures { Moves (spec.went (spec.in_statement at around (rest_of self.old.stack))) result self.new }
    {
        let _top = self.stack.pop();
        self.statement(at, around)
    }

    pub(crate) fn ended(&mut self) -> Move
        ensures { Moves (spec.ended self.old.stack) result self.new }
    {
        match self.stack.pop() {
            Some(Open::Expression(around)) => self.statement(InStatement::Complete, around),
            Some(Open::Assign(around)) => self.statement(InStatement::Complete, around),
            Some(Open::Return(around)) => self.statement(InStatement::Complete, around),
            Some(Open::Throw(around)) => self.statement(InStatement::Complete, around),
            Some(Open::Let(around)) => self.statement(InStatement::Items, around),
            Some(Open::Const(around)) => self.statement(InStatement::Items, around),
            _ => Move::Refused,
        }
    }

    pub(crate) fn equated(&mut self, is_target: bool, level: Level) -> Result<Move, AllocError>
        ensures { IfOk result (λ m. Moves (spec.equated is_target level self.old.stack) m self.new) }
    {
        if !is_target {
            return Ok(Move::Refused);
        }
        match self.stack.pop() {
            Some(Open::Expression(around)) => self.assign(level, around),
            _ => Ok(Move::Refused),
        }
    }

    pub(crate) fn assign(&mut self, level: Level, around: Around) -> Result<Move, AllocError>
        ensures { IfOk result (λ m. Moves (spec.equated true level (opens.Expression around ∷ self.old.stack)) m self.new) }
    {
        if !level.bare {
            return Ok(Move::Refused);
        }
        self.within(InExpression::Want, level.base, Open::Assign(around))
    }

    pub(crate) fn operated(&mut self, level: Level, mark: Mark) -> Move
        ensures { Moves (spec.operated level self.old.stack mark) result self.new }
    {
        if !is_operator(mark) {
            return Move::Refused;
        }
        let later = Level {
            bare: false,
            base: level.base,
            depth: level.base,
        };
        self.expression(InExpression::Want, later)
    }

    pub(crate) fn had_mark(
        &mut self,
        is_target: bool,
        level: Level,
        mark: Mark,
    ) -> Result<Move, AllocError>
        ensures { IfOk result (λ m. Moves (spec.had_mark is_target level self.old.stack mark) m self.new) }
    {
        match mark {
            Mark::Dot => Ok(self.expression(InExpression::Dotted, level)),
            Mark::OpenBracket => self.enter(level.depth, InExpression::Want, Open::Index(level)),
            Mark::OpenParen => self.enter(level.depth, InExpression::Argument, Open::Call(level)),
            Mark::CloseParen => Ok(self.closed()),
            Mark::CloseBracket => Ok(self.bracketed()),
            Mark::CloseBrace => Ok(self.braced()),
            Mark::Comma => Ok(self.parted(level)),
            Mark::Semicolon => Ok(self.ended()),
            Mark::Equals => self.equated(is_target, level),
            _ => Ok(self.operated(level, mark)),
        }
    }

    pub(crate) fn had(
        &mut self,
        is_target: bool,
        level: Level,
        kind: &TokenKind,
    ) -> Result<Move, AllocError>
        ensures { IfOk result (λ m. Moves (spec.had is_target level self.old.stack kind.now) m self.new) }
    {
        match kind {
            TokenKind::Mark(mark) => self.had_mark(is_target, level, *mark),
            _ => Ok(Move::Refused),
        }
    }

    pub(crate) fn any_to(&mut self, at: InExpression, level: Level, kind: &TokenKind) -> Move
        ensures { Moves (spec.any_to at level self.old.stack kind.now) result self.new }
    {
        match kind {
            TokenKind::Name(_) => self.expression(at, level),
            TokenKind::Word(_) => self.expression(at, level),
            _ => Move::Refused,
        }
    }

    pub(crate) fn argument(&mut self, level: Level, kind: &TokenKind) -> Result<Move, AllocError>
        ensures { IfOk result (λ m. Moves (spec.list_goes_on marks.CloseParen level self.old.stack kind.now) m self.new) }
    {
        match kind {
            TokenKind::Mark(Mark::CloseParen) => Ok(self.closed()),
            _ => self.wanted(level, kind),
        }
    }

    pub(crate) fn element(&mut self, level: Level, kind: &TokenKind) -> Result<Move, AllocError>
        ensures { IfOk result (λ m. Moves (spec.list_goes_on marks.CloseBracket level self.old.stack kind.now) m self.new) }
    {
        match kind {
            TokenKind::Mark(Mark::CloseBracket) => Ok(self.bracketed()),
            _ => self.wanted(level, kind),
        }
    }

    pub(crate) fn newly_named(&mut self, level: Level, kind: &TokenKind) -> Result<Move, AllocError>
        ensures { IfOk result (λ m. Moves (spec.newly_named level self.old.stack kind.now) m self.new) }
    {
        match kind {
            TokenKind::Mark(Mark::Dot) => Ok(self.expression(InExpression::NewDotted, level)),
            TokenKind::Mark(Mark::OpenParen) => self.enter_new(level),
            _ => Ok(Move::Refused),
        }
    }

    // The list after `new`, which stands in the `new` too.
    pub(crate) fn enter_new(&mut self, level: Level) -> Result<Move, AllocError>
        ensures { IfOk result (λ m. Moves (spec.enters_new level self.old.stack) m self.new) }
    {
        let Some(depth) = deeper(level.depth) else {
            return Ok(Move::TooDeep);
        };
        self.enter(depth, InExpression::Given, Open::New(level))
    }

    pub(crate) fn propertied(&mut self, level: Level, kind: &TokenKind) -> Move
        ensures { Moves (spec.propertied level self.old.stack kind.now) result self.new }
    {
        match kind {
            TokenKind::Mark(Mark::CloseBrace) => self.braced(),
            TokenKind::Name(_) => self.expression(InExpression::NamedKey, level),
            TokenKind::Word(_) => self.expression(InExpression::OtherKey, level),
            TokenKind::Text(_) => self.expression(InExpression::OtherKey, level),
            _ => Move::Refused,
        }
    }

    pub(crate) fn name_keyed(&mut self, level: Level, kind: &TokenKind) -> Move
        ensures { Moves (spec.name_keyed level self.old.stack kind.now) result self.new }
    {
        match kind {
            TokenKind::Mark(Mark::Colon) => self.expression(InExpression::Want, level),
            TokenKind::Mark(Mark::Comma) => self.expression(InExpression::Property, level),
            TokenKind::Mark(Mark::CloseBrace) => self.braced(),
            _ => Move::Refused,
        }
    }

    pub(crate) fn new_begun(&mut self, level: Level, kind: &TokenKind) -> Move
        ensures { Moves (spec.name_to (spec.in_expression at.NewNamed level self.old.stack) kind.now) result self.new }
    {
        match kind {
            TokenKind::Name(_) => self.expression(InExpression::NewNamed, level),
            _ => Move::Refused,
        }
    }

    pub(crate) fn other_key(&mut self, level: Level, kind: &TokenKind) -> Move
        ensures { Moves (spec.mark_to marks.Colon (spec.went (spec.in_expression at.Want level self.old.stack)) kind.now) result self.new }
    {
        match kind {
            TokenKind::Mark(Mark::Colon) => self.expression(InExpression::Want, level),
            _ => Move::Refused,
        }
    }

    pub(crate) fn expression_moved(
        &mut self,
        at: InExpression,
        level: Level,
        kind: &TokenKind,
    ) -> Result<Move, AllocError>
        ensures { IfOk result (λ m. Moves (spec.expression_moved at level self.old.stack kind.now) m self.new) }
    {
        match at {
            InExpression::Want => self.wanted(level, kind),
            InExpression::Have => self.had(false, level, kind),
            InExpression::Target => self.had(true, level, kind),
            InExpression::Dotted => Ok(self.any_to(InExpression::Target, level, kind)),
            InExpression::Argument => self.argument(level, kind),
            InExpression::Element => self.element(level, kind),
            InExpression::Given => self.argument(level, kind),
            InExpression::NewBegun => Ok(self.new_begun(level, kind)),
            InExpression::NewNamed => self.newly_named(level, kind),
            InExpression::NewDotted => Ok(self.any_to(InExpression::NewNamed, level, kind)),
            InExpression::Property => Ok(self.propertied(level, kind)),
            InExpression::NamedKey => Ok(self.name_keyed(level, kind)),
            InExpression::OtherKey => Ok(self.other_key(level, kind)),
        }
    }
}
