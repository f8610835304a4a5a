//! From tokens to nodes.

ghost use Rattle.std.specs.Prelude.{◌≡◌, ◌∷◌, ◌++◌, [], IfOk};
ghost use Rattle.host_nodes.specs.Building as spec;
ghost use Rattle.host_nodes.specs.Tables as tables;

use crate::form::{Declaration, Declared, Form, Function, Mention, Node, NodeId};
use crate::levels::close_level;
use crate::stack::Stack;
use crate::state::{At, Item, Level, Owner, Scope};
use crate::table::Table;
use embed_base::{PlainList, SharedString};
use host_lexer::{Token, TokenKind};
use std::alloc::{AllocError, Global};
use std::mem;

/// What was read of a script: what stands before the next token, what stands before its operand, the declarations of a `let` or
/// `const`, what is open, and the table.
#[derive(Drop)]
pub struct Builder {
    pub(crate) at: At,
    pub(crate) level: Level,
    pub(crate) told: PlainList<Declaration>,
    pub(crate) stack: Stack<Item>,
    pub(crate) table: Table,
}

/// The tree of a script: its functions, its other items, the names that it declares, the nodes in the order of their numbers, and the
/// mentions of names in the order of the text.
#[derive(Debug, Drop)]
pub struct Built {
    pub functions: PlainList<Function>,
    pub top: PlainList<NodeId>,
    pub declared: PlainList<Declared>,
    pub nodes: PlainList<Node>,
    pub mentions: PlainList<Mention>,
}

impl Builder {
    /// The builder before the first token.
    pub fn new(alloc: Global) -> Result<Builder, AllocError>
        ensures { IfOk result (λ b. b ≡ spec.start) }
    {
        let scope = Scope {
            place: 0,
            declared: PlainList::new(alloc),
            items: PlainList::new(alloc),
        };
        let owner = Owner::Script {
            functions: PlainList::new(alloc),
        };
        let mut stack = Stack::new(alloc);
        stack.push(Item::Scope { scope, owner })?;
        Ok(Builder {
            at: At::Items,
            level: Level::fresh(alloc),
            told: PlainList::new(alloc),
            stack,
            table: Table::new(alloc),
        })
    }

    pub(crate) fn alloc(&self) -> Global {
        self.table.alloc()
    }

    pub(crate) fn shared(&self, text: &str) -> Result<SharedString, AllocError>
        ensures { IfOk result (λ s. s ≡ text.now) }
    {
        SharedString::from_str(self.alloc(), text)
    }

    pub(crate) fn move_to(&mut self, at: At) -> Result<(), AllocError>
        ensures { IfOk result (λ _. self.new ≡ spec.moved_to at self.old) }
    {
        self.at = at;
        Ok(())
    }

    // Moves out what stands before the operand.
    pub(crate) fn take_level(&mut self) -> Level
        ensures level { result ≡ self.old.level }
        ensures builder { self.new ≡ spec.left_fresh self.old }
    {
        let alloc = self.alloc();
        mem::replace(&mut self.level, Level::fresh(alloc))
    }

    // The same, where an operand begins.
    pub(crate) fn begun_level(&mut self, place: u32) -> Level
        ensures level { result ≡ spec.begun self.old.level place }
        ensures builder { self.new ≡ spec.left_fresh self.old }
    {
        let mut level = self.take_level();
        level.begin(place);
        level
    }

    pub(crate) fn close_level(&mut self) -> Result<(), AllocError>
        ensures { IfOk result (λ _. self.new ≡ spec.closed_off self.old) }
    {
        let level = self.take_level();
        close_level(&mut self.table, level)
    }

    // Something is opened, in which an expression begins.
    pub(crate) fn open_with(&mut self, at: At, item: Item) -> Result<(), AllocError>
        ensures { IfOk result (λ _. self.new ≡ spec.open_with at item self.old) }
    {
        self.stack.push(item)?;
        self.level = Level::fresh(self.alloc());
        self.at = at;
        Ok(())
    }

    // What stood around a part goes on with an operand.
    pub(crate) fn resume(&mut self, level: Level)
        ensures { self.new ≡ spec.resumed level self.old.stack self.old self.old.table }
    {
        self.level = level;
        self.at = At::Have;
    }

    // The same, where the operand is a new node.
    pub(crate) fn resume_with(
        &mut self,
        form: Form,
        place: u32,
        level: Level,
    ) -> Result<(), AllocError>
        ensures { IfOk result (λ _. self.new ≡ spec.resumed level self.old.stack self.old (tables.add form place self.old.table)) }
    {
        self.table.add(form, place)?;
        self.resume(level);
        Ok(())
    }

    // A statement is read, whose node is a new one.
    pub(crate) fn complete(&mut self, form: Form, place: u32) -> Result<(), AllocError>
        ensures { IfOk result (λ _. self.new ≡ spec.complete self.old.stack self.old (tables.add form place self.old.table)) }
    {
        self.table.add(form, place)?;
        self.level = Level::fresh(self.alloc());
        self.at = At::Complete;
        Ok(())
    }

    // These nodes, and the last one.
    pub(crate) fn with_last(
        &self,
        nodes: PlainList<NodeId>,
    ) -> Result<PlainList<NodeId>, AllocError>
        ensures { IfOk result (λ xs. xs ≡ nodes ++ tables.last self.now.table ∷ []) }
    {
        let mut nodes = nodes;
        nodes.push(self.table.last())?;
        Ok(nodes)
    }

    fn head_moved(&mut self, place: u32, kind: &TokenKind) -> Result<(), AllocError>
        ensures { IfOk result (λ _. self.new ≡ spec.head_moved self.old place kind.now) }
    {
        match self.at {
            At::LetBegun(from) => self.let_begun(from, place, kind),
            At::LetNamed(from) => self.let_named(from, kind),
            At::ConstBegun(from) => self.const_begun(from, place, kind),
            At::ConstNamed(from) => self.const_named(from, kind),
            At::FunctionBegun(from) => self.function_begun(from, place, kind),
            At::FunctionNamed => self.function_named(kind),
            At::Parameter => self.parametered(place, kind),
            At::ParameterRead => self.parameter_goes_on(kind),
            At::ParametersRead => self.body_begins(place, kind),
            _ => Ok(()),
        }
    }

    fn statement_moved(&mut self, place: u32, kind: &TokenKind) -> Result<(), AllocError>
        ensures { IfOk result (λ _. self.new ≡ spec.statement_moved self.old place kind.now) }
    {
        match self.at {
            At::Items => self.itemed(place, kind),
            At::Begun => self.started(place, kind),
            At::Complete => self.after(place, kind),
            At::IfBegun(from) => self.test_begins(Item::IfTest { place: from }, kind),
            At::WhileBegun(from) => self.test_begins(Item::WhileTest { place: from }, kind),
            At::BreakBegun(from) => self.left_by(Form::Break, from, kind),
            At::ContinueBegun(from) => self.left_by(Form::Continue, from, kind),
            At::ReturnBegun(from) => self.returned(from, place, kind),
            At::ThrowBegun(from) => self.wanted_in(Item::Throw { place: from }, place, kind),
            At::TryBegun(from) => self.try_begins(from, place, kind),
            At::TryRead => self.catch_follows(kind),
            At::CatchBegun => self.caught(place, kind),
            At::CatchOpened => self.catch_opened(place, kind),
            At::CatchNamed => self.closes_to(At::CatchClosed, kind),
            At::CatchClosed => self.catch_closed(place, kind),
            _ => self.head_moved(place, kind),
        }
    }

    fn moved(&mut self, place: u32, kind: &TokenKind) -> Result<(), AllocError>
        ensures { IfOk result (λ _. self.new ≡ spec.moved self.old place kind.now) }
    {
        match self.at {
            At::Want => self.wanted(place, kind),
            At::Have => self.had(place, kind),
            At::Dotted(dot) => self.membered(At::Have, dot, kind),
            At::Argument => self.argued(place, kind),
            At::Element => self.elemented(place, kind),
            At::Given => self.argued(place, kind),
            At::NewBegun => self.newly_begun(place, kind),
            At::NewNamed => self.newly_named(place, kind),
            At::NewDotted(dot) => self.membered(At::NewNamed, dot, kind),
            At::Property => self.propertied(place, kind),
            At::NamedKey => self.name_keyed(place, kind),
            At::OtherKey => self.other_keyed(kind),
            _ => self.statement_moved(place, kind),
        }
    }

    /// What a token does after those that were read. After a failure nothing is said of the builder.
    pub fn step(&mut self, token: &Token) -> Result<(), AllocError>
        ensures { IfOk result (λ _. self.new ≡ spec.moved self.old token.now.from token.now.kind) }
    {
        self.moved(token.from, &token.kind)
    }

    /// The tokens end.
    pub fn ended(&mut self) -> Result<(), AllocError>
        ensures { IfOk result (λ _. self.new ≡ spec.ended self.old) }
    {
        match self.at {
            At::Complete => self.item_ended(),
            _ => Ok(()),
        }
    }

    /// The tree, where nothing but the script is open.
    pub fn finish(self) -> Option<Built>
        ensures { result ≡ spec.built self }
    {
        let Builder {
            at: _,
            level: _,
            told: _,
            mut stack,
            table,
        } = self;
        let Some(item) = stack.pop() else {
            return None;
        };
        match item {
            Item::Scope { scope, owner } => built_by(scope, owner, stack, table),
            other => not_built(other),
        }
    }
}

// What was open last is lost, at a token that can't stand there.
pub(crate) fn lost(_item: Item) -> Result<(), AllocError> {
    Ok(())
}

fn built_by(scope: Scope, owner: Owner, stack: Stack<Item>, table: Table) -> Option<Built>
    ensures { result ≡ spec.built_by scope owner stack table }
{
    match owner {
        Owner::Script { functions } => built_in(scope, functions, stack, table),
        other => not_built(Item::Scope {
            scope,
            owner: other,
        }),
    }
}

// The tree of a script's scope, if it is the last on the stack.
fn built_in(
    scope: Scope,
    functions: PlainList<Function>,
    stack: Stack<Item>,
    table: Table,
) -> Option<Built>
    ensures { result ≡ spec.built_in scope functions stack table }
{
    let mut stack = stack;
    if let Some(item) = stack.pop() {
        return not_built(item);
    }
    let (nodes, mentions) = table.into_lists();
    Some(Built {
        functions,
        top: scope.items,
        declared: scope.declared,
        nodes,
        mentions,
    })
}

// Something else is open.
fn not_built(_item: Item) -> Option<Built>
    ensures { result ≡ None }
{
    None
}
