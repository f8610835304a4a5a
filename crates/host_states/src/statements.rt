ghost use Rattle.std.specs.Prelude.{◌≡◌, ◌∷◌, IfOk, false, cond, Some, None};
ghost use Rattle.host_states.specs.Moves as spec;
ghost use Rattle.host_states.specs.Moves.{Moves};
ghost use Rattle.host_states.specs.declared.state.InExpression.TheVariants as at;
ghost use Rattle.host_states.specs.declared.state.InFunction.TheVariants as heads;
ghost use Rattle.host_lexer.specs.declared.token.Mark.TheVariants as marks;
ghost use Rattle.host_lexer.specs.declared.token.TokenKind.TheVariants as kinds;
ghost use Rattle.host_states.specs.declared.state.InStatement.TheVariants as on;
ghost use Rattle.host_states.specs.declared.state.Open.TheVariants as opens;
ghost use Rattle.host_lexer.specs.declared.token.Word.TheVariants as words;

use crate::reader::{Reader, deeper, fresh};
use crate::state::{Around, InExpression, InFunction, InStatement, Move, Open};
use host_lexer::{Mark, TokenKind, Word};
use std::alloc::AllocError;

impl Reader {
    // A statement's word or a block, within which the reader goes on.
    pub(crate) fn begin(
        &mut self,
        at: InStatement,
        around: Around,
        item: Open,
    ) -> Result<Move, AllocError>
        ensures { IfOk result (λ m. Moves (spec.begins_inside at around item self.old.stack) m self.new) }
    {
        let Some(depth) = deeper(around.depth) else {
            return Ok(Move::TooDeep);
        };
        let inner = Around {
            depth,
            in_loop: around.in_loop,
            in_function: around.in_function,
        };
        self.stack.push(item)?;
        Ok(self.statement(at, inner))
    }

    pub(crate) fn begin_loop(&mut self, around: Around) -> Result<Move, AllocError>
        ensures { IfOk result (λ m. Moves (spec.started_word around self.old.stack words.While) m self.new) }
    {
        let Some(depth) = deeper(around.depth) else {
            return Ok(Move::TooDeep);
        };
        let inner = Around {
            depth,
            in_loop: true,
            in_function: around.in_function,
        };
        self.stack.push(Open::Body(around))?;
        Ok(self.statement(InStatement::WhileBegun, inner))
    }

    // A statement that may stand only where `allowed`.
    pub(crate) fn begin_where(&mut self, allowed: bool, at: InStatement, around: Around) -> Move
        ensures { Moves (cond allowed (spec.went (spec.in_statement at around self.old.stack)) spec.refused) result self.new }
    {
        if !allowed {
            return Move::Refused;
        }
        self.statement(at, around)
    }

    pub(crate) fn expression_word(&mut self, around: Around, word: Word) -> Result<Move, AllocError>
        ensures { IfOk result (λ m. Moves (spec.wanted_word (spec.fresh_at around.depth) (opens.Expression around ∷ self.old.stack) word) m self.new) }
    {
        self.stack.push(Open::Expression(around))?;
        Ok(self.wanted_word(fresh(around.depth), word))
    }

    pub(crate) fn started_word(&mut self, around: Around, word: Word) -> Result<Move, AllocError>
        ensures { IfOk result (λ m. Moves (spec.started_word around self.old.stack word) m self.new) }
    {
        match word {
            Word::If => self.begin(InStatement::IfBegun, around, Open::Then(around)),
            Word::While => self.begin_loop(around),
            Word::Break => Ok(self.begin_where(around.in_loop, InStatement::BreakBegun, around)),
            Word::Continue => Ok(self.begin_where(
                around.in_loop,
                InStatement::ContinueBegun,
                around,
            )),
            Word::Return => Ok(self.begin_where(
                around.in_function,
                InStatement::ReturnBegun,
                around,
            )),
            Word::Throw => Ok(self.statement(InStatement::ThrowBegun, around)),
            Word::Try => Ok(self.statement(InStatement::TryBegun, around)),
            _ => self.expression_word(around, word),
        }
    }

    pub(crate) fn expression_mark(&mut self, around: Around, mark: Mark) -> Result<Move, AllocError>
        ensures { IfOk result (λ m. Moves (spec.wanted_mark (spec.fresh_at around.depth) (opens.Expression around ∷ self.old.stack) mark) m self.new) }
    {
        self.stack.push(Open::Expression(around))?;
        self.wanted_mark(fresh(around.depth), mark)
    }

    pub(crate) fn started_mark(&mut self, around: Around, mark: Mark) -> Result<Move, AllocError>
        ensures { IfOk result (λ m. Moves (spec.started_mark around self.old.stack mark) m self.new) }
    {
        match mark {
            Mark::Semicolon => Ok(self.statement(InStatement::Complete, around)),
            Mark::OpenBrace => self.begin(InStatement::Items, around, Open::Block(around)),
            _ => self.expression_mark(around, mark),
        }
    }

    // An expression begins within a statement.
    pub(crate) fn wanted_in(
        &mut self,
        item: Open,
        depth: usize,
        kind: &TokenKind,
    ) -> Result<Move, AllocError>
        ensures { IfOk result (λ m. Moves (spec.wanted (spec.fresh_at depth) (item ∷ self.old.stack) kind.now) m self.new) }
    {
        self.stack.push(item)?;
        self.wanted(fresh(depth), kind)
    }

    pub(crate) fn started(&mut self, around: Around, kind: &TokenKind) -> Result<Move, AllocError>
        ensures { IfOk result (λ m. Moves (spec.started around self.old.stack kind.now) m self.new) }
    {
        match kind {
            TokenKind::Word(word) => self.started_word(around, *word),
            TokenKind::Mark(mark) => self.started_mark(around, *mark),
            _ => self.wanted_in(Open::Expression(around), around.depth, kind),
        }
    }

    pub(crate) fn block_ended(&mut self) -> Move
        ensures { Moves (spec.block_ended self.old.stack) result self.new }
    {
        let script = Around {
            depth: 0,
            in_loop: false,
            in_function: false,
        };
        match self.stack.pop() {
            Some(Open::Block(around)) => self.statement(InStatement::Complete, around),
            Some(Open::Try(around)) => self.statement(InStatement::TryRead, around),
            Some(Open::Catch(around)) => self.statement(InStatement::Complete, around),
            Some(Open::Function) => self.statement(InStatement::Items, script),
            _ => Move::Refused,
        }
    }

    pub(crate) fn function_begins(&mut self) -> Move
        ensures { Moves (spec.function_begins self.old.stack) result self.new }
    {
        match self.stack.top() {
            None => self.function(InFunction::Begun),
            Some(_) => Move::Refused,
        }
    }

    pub(crate) fn itemed_word(&mut self, around: Around, word: Word) -> Result<Move, AllocError>
        ensures { IfOk result (λ m. Moves (spec.itemed_word around self.old.stack word) m self.new) }
    {
        match word {
            Word::Function => Ok(self.function_begins()),
            Word::Let => Ok(self.statement(InStatement::LetBegun, around)),
            Word::Const => Ok(self.statement(InStatement::ConstBegun, around)),
            _ => self.started_word(around, word),
        }
    }

    pub(crate) fn itemed(&mut self, around: Around, kind: &TokenKind) -> Result<Move, AllocError>
        ensures { IfOk result (λ m. Moves (spec.itemed around self.old.stack kind.now) m self.new) }
    {
        match kind {
            TokenKind::Mark(Mark::CloseBrace) => Ok(self.block_ended()),
            TokenKind::Word(word) => self.itemed_word(around, *word),
            _ => self.started(around, kind),
        }
    }

    // Closes the statements that end before an `else`, or before another token.
    pub(crate) fn settle(&mut self, around: Around, is_else: bool) -> Around
        ensures around { result ≡ (spec.settled around self.old.stack is_else).0 }
        ensures stack { self.new.stack ≡ (spec.settled around self.old.stack is_else).1 }
    {
        let mut around = around;
        while let Some(outer) = ends_with(self.stack.top(), is_else) {
            let _top = self.stack.pop();
            around = outer;
        }
        around
    }

    pub(crate) fn else_goes_on(&mut self, around: Around) -> Result<Move, AllocError>
        ensures { IfOk result (λ m. Moves (spec.else_goes_on around self.old.stack) m self.new) }
    {
        match self.stack.pop() {
            Some(Open::Then(outer)) => self.begin_else(around, outer),
            _ => Ok(Move::Refused),
        }
    }

    pub(crate) fn begin_else(&mut self, around: Around, outer: Around) -> Result<Move, AllocError>
        ensures { IfOk result (λ m. Moves (spec.went (spec.in_statement on.Begun around (opens.Else outer ∷ self.old.stack))) m self.new) }
    {
        self.stack.push(Open::Else(outer))?;
        Ok(self.statement(InStatement::Begun, around))
    }

    pub(crate) fn after(&mut self, around: Around, kind: &TokenKind) -> Result<Move, AllocError>
        ensures { IfOk result (λ m. Moves (spec.after around self.old.stack kind.now) m self.new) }
    {
        match kind {
            TokenKind::Word(Word::Else) => {
                let around = self.settle(around, true);
                self.else_goes_on(around)
            }
            _ => {
                let around = self.settle(around, false);
                self.itemed(around, kind)
            }
        }
    }

    pub(crate) fn let_goes_on(
        &mut self,
        around: Around,
        kind: &TokenKind,
    ) -> Result<Move, AllocError>
        ensures { IfOk result (λ m. Moves (spec.let_goes_on around self.old.stack kind.now) m self.new) }
    {
        match kind {
            TokenKind::Mark(Mark::Equals) => self.within(
                InExpression::Want,
                around.depth,
                Open::Let(around),
            ),
            TokenKind::Mark(Mark::Comma) => Ok(self.statement(InStatement::LetBegun, around)),
            TokenKind::Mark(Mark::Semicolon) => Ok(self.statement(InStatement::Items, around)),
            _ => Ok(Move::Refused),
        }
    }

    // An expression on the line of the word before it.
    pub(crate) fn wanted_on_line(
        &mut self,
        after_line: bool,
        item: Open,
        depth: usize,
        kind: &TokenKind,
    ) -> Result<Move, AllocError>
        ensures { IfOk result (λ m. Moves (cond after_line spec.refused (spec.wanted (spec.fresh_at depth) (item ∷ self.old.stack) kind.now)) m self.new) }
    {
        if after_line {
            return Ok(Move::Refused);
        }
        self.wanted_in(item, depth, kind)
    }

    pub(crate) fn returned(
        &mut self,
        after_line: bool,
        around: Around,
        kind: &TokenKind,
    ) -> Result<Move, AllocError>
        ensures { IfOk result (λ m. Moves (spec.returned after_line around self.old.stack kind.now) m self.new) }
    {
        match kind {
            TokenKind::Mark(Mark::Semicolon) => Ok(self.statement(InStatement::Complete, around)),
            _ => self.wanted_on_line(after_line, Open::Return(around), around.depth, kind),
        }
    }

    pub(crate) fn caught(&mut self, around: Around, kind: &TokenKind) -> Result<Move, AllocError>
        ensures { IfOk result (λ m. Moves (spec.caught around self.old.stack kind.now) m self.new) }
    {
        match kind {
            TokenKind::Mark(Mark::OpenBrace) => self.begin(
                InStatement::Items,
                around,
                Open::Catch(around),
            ),
            TokenKind::Mark(Mark::OpenParen) => Ok(self.catch_opened(around)),
            _ => Ok(Move::Refused),
        }
    }

    pub(crate) fn catch_opened(&mut self, around: Around) -> Move
        ensures { Moves (spec.caught around self.old.stack (kinds.Mark marks.OpenParen)) result self.new }
    {
        if deeper(around.depth).is_none() {
            return Move::TooDeep;
        }
        self.statement(InStatement::CatchOpened, around)
    }

    pub(crate) fn parens(
        &mut self,
        around: Around,
        item: Open,
        kind: &TokenKind,
    ) -> Result<Move, AllocError>
        ensures { IfOk result (λ m. Moves (spec.mark_to marks.OpenParen (spec.enters around.depth at.Want item self.old.stack) kind.now) m self.new) }
    {
        match kind {
            TokenKind::Mark(Mark::OpenParen) => self.enter(around.depth, InExpression::Want, item),
            _ => Ok(Move::Refused),
        }
    }

    pub(crate) fn braces(
        &mut self,
        around: Around,
        item: Open,
        kind: &TokenKind,
    ) -> Result<Move, AllocError>
        ensures { IfOk result (λ m. Moves (spec.mark_to marks.OpenBrace (spec.begins_inside on.Items around item self.old.stack) kind.now) m self.new) }
    {
        match kind {
            TokenKind::Mark(Mark::OpenBrace) => self.begin(InStatement::Items, around, item),
            _ => Ok(Move::Refused),
        }
    }

    pub(crate) fn semicolon(&mut self, around: Around, kind: &TokenKind) -> Move
        ensures { Moves (spec.mark_to marks.Semicolon (spec.went (spec.in_statement on.Complete around self.old.stack)) kind.now) result self.new }
    {
        match kind {
            TokenKind::Mark(Mark::Semicolon) => self.statement(InStatement::Complete, around),
            _ => Move::Refused,
        }
    }

    pub(crate) fn close_paren(&mut self, around: Around, kind: &TokenKind) -> Move
        ensures { Moves (spec.mark_to marks.CloseParen (spec.went (spec.in_statement on.CatchClosed around self.old.stack)) kind.now) result self.new }
    {
        match kind {
            TokenKind::Mark(Mark::CloseParen) => self.statement(InStatement::CatchClosed, around),
            _ => Move::Refused,
        }
    }

    pub(crate) fn name(&mut self, at: InStatement, around: Around, kind: &TokenKind) -> Move
        ensures { Moves (spec.name_to (spec.in_statement at around self.old.stack) kind.now) result self.new }
    {
        match kind {
            TokenKind::Name(_) => self.statement(at, around),
            _ => Move::Refused,
        }
    }

    pub(crate) fn catch(&mut self, around: Around, kind: &TokenKind) -> Move
        ensures { Moves (spec.catch_to (spec.went (spec.in_statement on.CatchBegun around self.old.stack)) kind.now) result self.new }
    {
        match kind {
            TokenKind::Word(Word::Catch) => self.statement(InStatement::CatchBegun, around),
            _ => Move::Refused,
        }
    }

    pub(crate) fn const_named(
        &mut self,
        around: Around,
        kind: &TokenKind,
    ) -> Result<Move, AllocError>
        ensures { IfOk result (λ m. Moves (spec.statement_moved on.ConstNamed around self.old.stack false kind.now) m self.new) }
    {
        match kind {
            TokenKind::Mark(Mark::Equals) => self.within(
                InExpression::Want,
                around.depth,
                Open::Const(around),
            ),
            _ => Ok(Move::Refused),
        }
    }

    pub(crate) fn statement_moved(
        &mut self,
        at: InStatement,
        around: Around,
        after_line: bool,
        kind: &TokenKind,
    ) -> Result<Move, AllocError>
        ensures { IfOk result (λ m. Moves (spec.statement_moved at around self.old.stack after_line kind.now) m self.new) }
    {
        match at {
            InStatement::Items => self.itemed(around, kind),
            InStatement::Begun => self.started(around, kind),
            InStatement::Complete => self.after(around, kind),
            InStatement::IfBegun => self.parens(around, Open::If(around), kind),
            InStatement::WhileBegun => self.parens(around, Open::While(around), kind),
            InStatement::BreakBegun => Ok(self.semicolon(around, kind)),
            InStatement::ContinueBegun => Ok(self.semicolon(around, kind)),
            InStatement::ReturnBegun => self.returned(after_line, around, kind),
            InStatement::ThrowBegun => self.wanted_on_line(
                after_line,
                Open::Throw(around),
                around.depth,
                kind,
            ),
            InStatement::TryBegun => self.braces(around, Open::Try(around), kind),
            InStatement::TryRead => Ok(self.catch(around, kind)),
            InStatement::CatchBegun => self.caught(around, kind),
            InStatement::CatchOpened => Ok(self.name(InStatement::CatchNamed, around, kind)),
            InStatement::CatchNamed => Ok(self.close_paren(around, kind)),
            InStatement::CatchClosed => self.braces(around, Open::Catch(around), kind),
            InStatement::LetBegun => Ok(self.name(InStatement::LetNamed, around, kind)),
            InStatement::LetNamed => self.let_goes_on(around, kind),
            InStatement::ConstBegun => Ok(self.name(InStatement::ConstNamed, around, kind)),
            InStatement::ConstNamed => self.const_named(around, kind),
        }
    }

    pub(crate) fn parametered(&mut self, kind: &TokenKind) -> Move
        ensures { Moves (spec.parametered self.old.stack kind.now) result self.new }
    {
        match kind {
            TokenKind::Mark(Mark::CloseParen) => self.function(InFunction::ParametersRead),
            TokenKind::Name(_) => self.function(InFunction::ParameterRead),
            _ => Move::Refused,
        }
    }

    pub(crate) fn parameter_goes_on(&mut self, kind: &TokenKind) -> Move
        ensures { Moves (spec.parameter_goes_on self.old.stack kind.now) result self.new }
    {
        match kind {
            TokenKind::Mark(Mark::Comma) => self.function(InFunction::Parameter),
            TokenKind::Mark(Mark::CloseParen) => self.function(InFunction::ParametersRead),
            _ => Move::Refused,
        }
    }

    pub(crate) fn function_named(&mut self, kind: &TokenKind) -> Move
        ensures { Moves (spec.function_moved heads.Begun self.old.stack kind.now) result self.new }
    {
        match kind {
            TokenKind::Name(_) => self.function(InFunction::Named),
            _ => Move::Refused,
        }
    }

    pub(crate) fn parameters_begin(&mut self, kind: &TokenKind) -> Move
        ensures { Moves (spec.function_moved heads.Named self.old.stack kind.now) result self.new }
    {
        match kind {
            TokenKind::Mark(Mark::OpenParen) => self.function(InFunction::Parameter),
            _ => Move::Refused,
        }
    }

    pub(crate) fn body_begins(&mut self) -> Result<Move, AllocError>
        ensures { IfOk result (λ m. Moves (spec.went (spec.in_statement on.Items spec.body_around (opens.Function ∷ self.old.stack))) m self.new) }
    {
        let body = Around {
            depth: 1,
            in_loop: false,
            in_function: true,
        };
        self.stack.push(Open::Function)?;
        Ok(self.statement(InStatement::Items, body))
    }

    pub(crate) fn body(&mut self, kind: &TokenKind) -> Result<Move, AllocError>
        ensures { IfOk result (λ m. Moves (spec.function_moved heads.ParametersRead self.old.stack kind.now) m self.new) }
    {
        match kind {
            TokenKind::Mark(Mark::OpenBrace) => self.body_begins(),
            _ => Ok(Move::Refused),
        }
    }

    pub(crate) fn function_moved(
        &mut self,
        at: InFunction,
        kind: &TokenKind,
    ) -> Result<Move, AllocError>
        ensures { IfOk result (λ m. Moves (spec.function_moved at self.old.stack kind.now) m self.new) }
    {
        match at {
            InFunction::Begun => Ok(self.function_named(kind)),
            InFunction::Named => Ok(self.parameters_begin(kind)),
            InFunction::Parameter => Ok(self.parametered(kind)),
            InFunction::ParameterRead => Ok(self.parameter_goes_on(kind)),
            InFunction::ParametersRead => self.body(kind),
        }
    }
}

// What stood around a statement that ends, if the top is one that ends so.
fn ends_with(top: Option<Open>, is_else: bool) -> Option<Around>
    ensures { result ≡ spec.ends_so top is_else }
{
    match top {
        Some(Open::Then(outer)) => not_else(outer, is_else),
        Some(Open::Else(outer)) => Some(outer),
        Some(Open::Body(outer)) => Some(outer),
        _ => None,
    }
}

fn not_else(outer: Around, is_else: bool) -> Option<Around>
    ensures { result ≡ cond is_else None (Some outer) }
{
    if is_else {
        return None;
    }
    Some(outer)
}
