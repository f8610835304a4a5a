ghost use Rattle.std.specs.Prelude.{◌≡◌, [], ◌∷◌, IfOk, false};
ghost use Rattle.host_states.specs.Moves as spec;
ghost use Rattle.host_states.specs.Moves.{Moves};
ghost use Rattle.host_states.specs.Shapes.{shape, accepts, Follows};
ghost use Rattle.host_grammar.specs.Machine as machine;
ghost use Rattle.host_grammar.specs.Counting as counting;
ghost use Rattle.host_grammar.specs.Printing.{seen};
ghost use Rattle.host_states.specs.declared.state.InStatement.TheVariants as on;

use crate::stack::Stack;
use crate::state::{Around, InExpression, InFunction, InStatement, Level, Move, Open, State};
use embed_base::limits::MOST_OPEN;
use host_lexer::{Token, TokenKind};
use std::alloc::{AllocError, Global};

/// The reader of a script's tokens, where it is and what is open there.
#[derive(Drop)]
pub struct Reader {
    pub(crate) state: State,
    pub(crate) stack: Stack,
}

/// One construct more, where there is room for it.
pub fn deeper(depth: usize) -> Option<usize>
    ensures { result ≡ spec.deeper_of depth }
{
    if depth >= MOST_OPEN {
        return None;
    }
    Some(depth + 1)
}

/// A level with nothing before its operand.
pub fn fresh(depth: usize) -> Level
    ensures { result ≡ spec.fresh_at depth }
{
    Level {
        bare: true,
        base: depth,
        depth,
    }
}

impl Reader {
    /// The reader before the first token.
    pub fn new(alloc: Global) -> Reader
        ensures { result ≡ spec.in_statement on.Items spec.script_around [] }
    {
        let around = Around {
            depth: 0,
            in_loop: false,
            in_function: false,
        };
        Reader {
            state: State::Statement(InStatement::Items, around),
            stack: Stack::new(alloc),
        }
    }

    pub(crate) fn expression(&mut self, at: InExpression, level: Level) -> Move
        ensures { Moves (spec.went (spec.in_expression at level self.old.stack)) result self.new }
    {
        self.state = State::Expression(at, level);
        Move::Went
    }

    pub(crate) fn statement(&mut self, at: InStatement, around: Around) -> Move
        ensures { Moves (spec.went (spec.in_statement at around self.old.stack)) result self.new }
    {
        self.state = State::Statement(at, around);
        Move::Went
    }

    pub(crate) fn function(&mut self, at: InFunction) -> Move
        ensures { Moves (spec.went (spec.in_function at self.old.stack)) result self.new }
    {
        self.state = State::Function(at);
        Move::Went
    }

    // An expression that begins within what is opened.
    pub(crate) fn within(
        &mut self,
        at: InExpression,
        depth: usize,
        item: Open,
    ) -> Result<Move, AllocError>
        ensures { IfOk result (λ m. Moves (spec.went (spec.in_expression at (spec.fresh_at depth) (item ∷ self.old.stack))) m self.new) }
    {
        self.stack.push(item)?;
        Ok(self.expression(at, fresh(depth)))
    }

    pub(crate) fn enter(
        &mut self,
        depth: usize,
        at: InExpression,
        item: Open,
    ) -> Result<Move, AllocError>
        ensures { IfOk result (λ m. Moves (spec.enters depth at item self.old.stack) m self.new) }
    {
        let Some(deeper) = deeper(depth) else {
            return Ok(Move::TooDeep);
        };
        self.within(at, deeper, item)
    }

    fn moved(&mut self, after_line: bool, kind: &TokenKind) -> Result<Move, AllocError>
        ensures { IfOk result (λ m. Moves (spec.moved self.old after_line kind.now) m self.new) }
    {
        match self.state {
            State::Expression(at, level) => self.expression_moved(at, level, kind),
            State::Statement(at, around) => self.statement_moved(at, around, after_line, kind),
            State::Function(at) => self.function_moved(at, kind),
        }
    }

    /// What a token does after those that were read. After `Refused` or `TooDeep`, or a failure, nothing is said of the reader.
    pub fn step(&mut self, token: &Token) -> Result<Move, AllocError>
        ensures { IfOk result (λ m. (s : machine.State) → shape s ≡ self.old → Follows (machine.step s (seen token.now)) (counting.opens s token.now.kind) m self.new) }
    {
        let step = self.moved(token.after_line, &token.kind)?;
        Ok(step)
    }

    /// Whether the tokens that were read are a script's.
    pub fn is_whole(self) -> bool
        ensures { (s : machine.State) → shape s ≡ self → result ≡ accepts (machine.accept s) }
    {
        let mut reader = self;
        reader.ends()
    }

    fn ends(&mut self) -> bool
        ensures { result ≡ spec.is_whole self.old }
    {
        match self.state {
            State::Statement(InStatement::Items, _) => self.stack.top().is_none(),
            State::Statement(InStatement::Complete, around) => self.ends_after(around),
            _ => false,
        }
    }

    fn ends_after(&mut self, around: Around) -> bool
        ensures { result ≡ spec.is_empty (spec.settled around self.old.stack false).1 }
    {
        let _around = self.settle(around, false);
        self.stack.top().is_none()
    }
}
