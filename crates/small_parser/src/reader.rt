//! The reader of scripts, a token at a time.
ghost use Rattle.std.specs.Prelude.{◌≡◌, ◌↔◌, ℕ, List, [], reverse, Some, IfOk, IsTrue, nat_lt};
ghost use Rattle.small_parser.specs.Grammar as grammar;
ghost use Rattle.small_parser.specs.Machine as machine;
ghost use Rattle.small_parser.specs.Shows.{FactorShows, ArgumentsShow, operator_of};
ghost use Rattle.small_parser.specs.Chains.{LevelShows};
ghost use Rattle.small_parser.specs.declared.reader.Outer.TheVariants as outers;
ghost use Rattle.small_parser.specs.Reading.{OuterShows, Held, Shows, Follows, FromWant, FromHave, FromClosed, FromPassing, FromArguments, FromScript};

use crate::chain::{Level, add, close_level, close_product};
use crate::instance::{AFTER_FILE, BEFORE_FILE, Piece};
use crate::script::{Form, Node, NodeId, Operand, Operator};
use embed_base::limits::MOST_OPEN;
use embed_base::{PlainList, PlainString};
use small_lexer::{Mark, Token, TokenKind, Word};
use std::alloc::{AllocError, Global};
use std::collections::HashSet;
use std::mem;

/// The statement around an expression.
#[derive(Drop)]
pub enum Statement<'a> {
    None,
    /// The place of a `let`, and the name that it declares.
    Let(u32, &'a str),
    /// The place of a `print`, and its arguments so far.
    Print(u32, PlainList<NodeId>),
}

/// A call that is open: its name, the place of its `(`, and its arguments so far.
#[derive(Drop)]
pub struct Call<'a> {
    pub callee: &'a str,
    pub place: u32,
    pub arguments: PlainList<NodeId>,
}

/// A parenthesis that is open in an expression, with what stands before it.
#[derive(Drop)]
pub enum Outer<'a> {
    /// Around an expression.
    Parens(Level),
    /// Around the arguments of a call.
    Call(Level, Call<'a>),
}

/// What is wanted next. A number is the place of the statement that is open.
#[derive(Drop)]
pub enum Phase<'a> {
    /// A statement or the end.
    Items,
    /// A name after `let`.
    LetBegun(u32),
    /// `=` after that name.
    LetNamed(u32, &'a str),
    /// What a `let` declares, after `=`: an expression or an instance.
    LetEquals(u32, &'a str),
    /// A token of an instance before its file's name, the first of these, or that name.
    BeforeFile {
        place: u32,
        name: &'a str,
        left: &'a [Piece],
    },
    /// A token of an instance after its file's name, the first of these, or its export's name.
    AfterFile {
        place: u32,
        name: &'a str,
        file: &'a str,
        left: &'a [Piece],
    },
    /// `;` after an instance.
    Instanced {
        place: u32,
        name: &'a str,
        file: &'a str,
        export: &'a str,
    },
    /// `(` after `print`.
    PrintBegun(u32),
    /// The first argument of a `print` or its `)`.
    Argument(u32),
    /// `;` after the arguments of a `print`.
    Printed(u32, PlainList<NodeId>),
    /// An operand.
    Want,
    /// `(` after the name of a function.
    Called(&'a str),
    /// An argument of a call or its `)`.
    Passing,
    /// What comes after an operand.
    Have(NodeId),
}

/// What has been read, and what is open: a statement, parentheses in its expression, each with what stands before it,
/// and what stands before the next operand. `names` has all names that are declared, and `functions` those that are bound.
#[derive(Drop)]
pub struct Reader<'a> {
    pub nodes: PlainList<Node>,
    pub top: PlainList<NodeId>,
    pub names: HashSet<&'a str>,
    pub functions: HashSet<&'a str>,
    pub statement: Statement<'a>,
    pub outer: Vec<Outer<'a>>,
    pub level: Level,
    pub phase: Phase<'a>,
}

impl<'a> Reader<'a> {
    /// A reader that has read nothing.
    pub fn new(alloc: Global) -> Self
        ensures { Shows machine.start result }
    {
        Reader {
            nodes: PlainList::new(alloc),
            top: PlainList::new(alloc),
            names: HashSet::new(alloc),
            functions: HashSet::new(alloc),
            statement: Statement::None,
            outer: Vec::new(alloc),
            level: Level::new(alloc),
            phase: Phase::Items,
        }
    }

    // Whether one more parenthesis may be opened.
    fn has_room(&self) -> bool
        ensures { (outer : machine.Outer) → OuterShows outer self.now.nodes (reverse self.now.outer.items) self.now.statement → result ≡ nat_lt (machine.open_in outer) grammar.most_open }
    {
        match &self.statement {
            Statement::Print(..) => self.outer.len() < MOST_OPEN - 1,
            _ => self.outer.len() < MOST_OPEN,
        }
    }

    // Reads a `(` where an operand is wanted.
    fn open(&mut self, alloc: Global) -> Result<bool, AllocError>
        ensures { IfOk result (λ went. (k : ℕ) → FromWant (λ l outer. machine.opened l outer k) self.old went self.new) }
    {
        if !self.has_room() {
            return Ok(false);
        }
        let level = mem::replace(&mut self.level, Level::new(alloc));
        self.outer.push(Outer::Parens(level))?;
        self.phase = Phase::Want;
        Ok(true)
    }

    // Reads a name where an operand is wanted.
    fn name(&mut self, alloc: Global, name: &'a str, place: u32) -> Result<bool, AllocError>
        ensures { IfOk result (λ went. FromWant (λ l outer. machine.named l outer place name.now) self.old went self.new) }
    {
        if self.functions.contains(name) {
            self.phase = Phase::Called(name);
            return Ok(true);
        }
        if !self.names.contains(name) {
            return Ok(false);
        }
        let spelling = PlainString::from_str(alloc, name)?;
        let id = add(&mut self.nodes, Form::Name(spelling), place)?;
        self.phase = Phase::Have(id);
        Ok(true)
    }

    // Reads a token where an operand is wanted.
    fn wanted(&mut self, alloc: Global, token: &'a Token) -> Result<bool, AllocError>
        ensures { IfOk result (λ went. FromWant (λ l outer. machine.wanted l outer token.now.from token.now.kind) self.old went self.new) }
    {
        match &token.kind {
            TokenKind::Number(value) => {
                let id = add(&mut self.nodes, Form::Number(*value), token.from)?;
                self.phase = Phase::Have(id);
                Ok(true)
            }
            TokenKind::Text(text) => {
                let inside = PlainString::from_str(alloc, text.as_str())?;
                let id = add(&mut self.nodes, Form::Text(inside), token.from)?;
                self.phase = Phase::Have(id);
                Ok(true)
            }
            TokenKind::Name(name) => self.name(alloc, name.as_str(), token.from),
            TokenKind::Mark(Mark::Open) => self.open(alloc),
            _ => Ok(false),
        }
    }

    // Reads a `*` after an operand.
    fn times(&mut self, operand: NodeId, place: u32) -> Result<bool, AllocError>
        ensures { IfOk result (λ went. FromHave (λ f l outer. Some (machine.want (machine.at_times l f place) outer)) operand self.old went self.new) }
    {
        self.level.product.push(Operand {
            node: operand,
            operator: Operator::Times,
            place,
        })?;
        self.phase = Phase::Want;
        Ok(true)
    }

    // Reads a `+` or `-` after an operand.
    fn added(
        &mut self,
        alloc: Global,
        operand: NodeId,
        operator: Operator,
        place: u32,
    ) -> Result<bool, AllocError>
        ensures { IfOk result (λ went. (o : grammar.Additive) → operator ≡ operator_of o → FromHave (λ f l outer. Some (machine.want (machine.at_added l f o place) outer)) operand self.old went self.new) }
    {
        let product = mem::replace(&mut self.level.product, PlainList::new(alloc));
        let node = close_product(&mut self.nodes, product, operand)?;
        self.level.sum.push(Operand {
            node,
            operator,
            place,
        })?;
        self.phase = Phase::Want;
        Ok(true)
    }

    // Adds a call whose arguments have been read, and goes on outside of it.
    fn add_call(
        &mut self,
        alloc: Global,
        outside: Level,
        call: Call<'a>,
    ) -> Result<bool, AllocError>
        ensures { IfOk result (λ went. (c : ℕ) → FromArguments (λ w k o a l outer. Some (machine.have (grammar.call w k o a c) l outer)) outside call.entry self.old went self.new) }
    {
        let Call {
            callee,
            place,
            arguments,
        } = call;
        let form = Form::Call {
            callee: PlainString::from_str(alloc, callee)?,
            arguments,
        };
        let id = add(&mut self.nodes, form, place)?;
        self.level = outside;
        self.phase = Phase::Have(id);
        Ok(true)
    }

    // Reads the `(` of a call.
    fn open_call(
        &mut self,
        alloc: Global,
        callee: &'a str,
        token: &Token,
    ) -> Result<bool, AllocError>
        ensures { IfOk result (λ went. (k : ℕ) → FromWant (λ l outer. machine.call_opened callee.now k l outer token.now.from token.now.kind) self.old went self.new) }
    {
        match &token.kind {
            TokenKind::Mark(Mark::Open) => {
                if !self.has_room() {
                    return Ok(false);
                }
                let level = mem::replace(&mut self.level, Level::new(alloc));
                let call = Call {
                    callee,
                    place: token.from,
                    arguments: PlainList::new(alloc),
                };
                self.outer.push(Outer::Call(level, call))?;
                self.phase = Phase::Passing;
                Ok(true)
            }
            _ => Ok(false),
        }
    }

    // Ends a call after a comma or without arguments.
    fn end_call(&mut self, alloc: Global) -> Result<bool, AllocError>
        ensures { IfOk result (λ went. (c : ℕ) → FromPassing (λ w k o a l outer. Some (machine.have (grammar.call w k o (machine.passed_with a) c) l outer)) self.old went self.new) }
    {
        let Some(taken) = self.outer.pop() else {
            return Ok(false);
        };
        match taken {
            Outer::Call(outside, call) => self.add_call(alloc, outside, call),
            Outer::Parens(_) => Ok(false),
        }
    }

    // Reads a token where an argument of a call or its `)` is wanted.
    fn pass(&mut self, alloc: Global, token: &'a Token) -> Result<bool, AllocError>
        ensures { IfOk result (λ went. FromPassing (λ w k o a l outer. machine.pass w k o a l outer token.now.from token.now.kind) self.old went self.new) }
    {
        match &token.kind {
            TokenKind::Mark(Mark::Close) => self.end_call(alloc),
            _ => {
                self.level = Level::new(alloc);
                self.wanted(alloc, token)
            }
        }
    }

    // Reads a `)` after an operand.
    fn close(&mut self, alloc: Global, operand: NodeId) -> Result<bool, AllocError>
        ensures { IfOk result (λ went. (k : ℕ) → FromHave (λ f l outer. machine.closed f l outer k) operand self.old went self.new) }
    {
        let Some(taken) = self.outer.pop() else {
            return self.close_print(alloc, operand);
        };
        match taken {
            Outer::Parens(outside) => self.close_parens(outside, operand),
            Outer::Call(outside, call) => self.close_call(alloc, outside, call, operand),
        }
    }

    // Reads the `)` of a parenthesis around an expression after an operand.
    fn close_parens(&mut self, outside: Level, operand: NodeId) -> Result<bool, AllocError>
        ensures { IfOk result (λ went. (k : ℕ) → FromClosed (λ f l outer. machine.closed f l outer k) operand (outers.Parens outside) self.old went self.new) }
    {
        let level = mem::replace(&mut self.level, outside);
        let sum = close_level(&mut self.nodes, level, operand)?;
        self.phase = Phase::Have(sum);
        Ok(true)
    }

    // Reads the `)` of a call after an operand.
    fn close_call(
        &mut self,
        alloc: Global,
        outside: Level,
        mut call: Call<'a>,
        operand: NodeId,
    ) -> Result<bool, AllocError>
        ensures { IfOk result (λ went. (k : ℕ) → FromClosed (λ f l outer. machine.closed f l outer k) operand (outers.Call outside call.entry) self.old went self.new) }
    {
        let level = mem::replace(&mut self.level, Level::new(alloc));
        let sum = close_level(&mut self.nodes, level, operand)?;
        call.arguments.push(sum)?;
        self.add_call(alloc, outside, call)
    }

    // Reads the `)` of a `print` after an operand.
    fn close_print(&mut self, alloc: Global, operand: NodeId) -> Result<bool, AllocError>
        ensures { IfOk result (λ went. (f : grammar.Factor) (l : machine.Level) (outer : machine.Outer) (k : ℕ) → Held (machine.script_of outer) self.old → FactorShows f self.old.nodes operand.0 → LevelShows l self.old.nodes self.old.level → OuterShows outer self.old.nodes [] self.old.statement → reverse self.old.outer.items ≡ [] → Follows (machine.closed f l outer k) went self.new) }
    {
        match mem::replace(&mut self.statement, Statement::None) {
            Statement::Print(place, mut arguments) => {
                let level = mem::replace(&mut self.level, Level::new(alloc));
                let sum = close_level(&mut self.nodes, level, operand)?;
                arguments.push(sum)?;
                self.phase = Phase::Printed(place, arguments);
                Ok(true)
            }
            _ => Ok(false),
        }
    }

    // Reads a `,` after an operand.
    fn part(&mut self, alloc: Global, operand: NodeId) -> Result<bool, AllocError>
        ensures { IfOk result (λ went. (k : ℕ) → FromHave (λ f l outer. machine.parted f l outer k) operand self.old went self.new) }
    {
        let Some(taken) = self.outer.pop() else {
            return self.part_print(alloc, operand);
        };
        match taken {
            Outer::Parens(_) => Ok(false),
            Outer::Call(outside, call) => self.part_call(alloc, outside, call, operand),
        }
    }

    // Reads the `,` of a call after an operand.
    fn part_call(
        &mut self,
        alloc: Global,
        outside: Level,
        mut call: Call<'a>,
        operand: NodeId,
    ) -> Result<bool, AllocError>
        ensures { IfOk result (λ went. (k : ℕ) → FromClosed (λ f l outer. machine.parted f l outer k) operand (outers.Call outside call.entry) self.old went self.new) }
    {
        let level = mem::replace(&mut self.level, Level::new(alloc));
        let sum = close_level(&mut self.nodes, level, operand)?;
        call.arguments.push(sum)?;
        self.outer.push(Outer::Call(outside, call))?;
        self.phase = Phase::Passing;
        Ok(true)
    }

    // Reads the `,` of a `print` after an operand.
    fn part_print(&mut self, alloc: Global, operand: NodeId) -> Result<bool, AllocError>
        ensures { IfOk result (λ went. (f : grammar.Factor) (l : machine.Level) (outer : machine.Outer) (k : ℕ) → Held (machine.script_of outer) self.old → FactorShows f self.old.nodes operand.0 → LevelShows l self.old.nodes self.old.level → OuterShows outer self.old.nodes [] self.old.statement → reverse self.old.outer.items ≡ [] → Follows (machine.parted f l outer k) went self.new) }
    {
        match mem::replace(&mut self.statement, Statement::None) {
            Statement::Print(place, mut arguments) => {
                let level = mem::replace(&mut self.level, Level::new(alloc));
                let sum = close_level(&mut self.nodes, level, operand)?;
                arguments.push(sum)?;
                self.statement = Statement::Print(place, arguments);
                self.phase = Phase::Want;
                Ok(true)
            }
            _ => Ok(false),
        }
    }

    // Ends a `let` at an operand.
    fn declare(
        &mut self,
        alloc: Global,
        place: u32,
        name: &'a str,
        operand: NodeId,
    ) -> Result<bool, AllocError>
        ensures { IfOk result (λ went. (f : grammar.Factor) (l : machine.Level) (n q k : ℕ) → FactorShows f self.old.nodes operand.0 → LevelShows l self.old.nodes self.old.level → FromScript (λ s. Some (machine.items (grammar.declaration s place name.now n q (machine.sum_of l f) k))) self.old went self.new) }
    {
        let level = mem::replace(&mut self.level, Level::new(alloc));
        let value = close_level(&mut self.nodes, level, operand)?;
        let spelling = PlainString::from_str(alloc, name)?;
        let form = Form::Let {
            name: spelling,
            value,
        };
        let id = add(&mut self.nodes, form, place)?;
        self.top.push(id)?;
        let _ = self.names.insert(name)?;
        self.phase = Phase::Items;
        Ok(true)
    }

    // Reads the `;` of a `let` after an operand.
    fn end(&mut self, alloc: Global, operand: NodeId) -> Result<bool, AllocError>
        ensures { IfOk result (λ went. (k : ℕ) → FromHave (λ f l outer. machine.ended f l outer k) operand self.old went self.new) }
    {
        if !self.outer.is_empty() {
            return Ok(false);
        }
        let Statement::Let(place, name) = mem::replace(&mut self.statement, Statement::None) else {
            return Ok(false);
        };
        self.declare(alloc, place, name, operand)
    }

    // Reads a punctuator after an operand.
    fn marked(
        &mut self,
        alloc: Global,
        operand: NodeId,
        mark: Mark,
        place: u32,
    ) -> Result<bool, AllocError>
        ensures { IfOk result (λ went. FromHave (λ f l outer. machine.marked f l outer place mark) operand self.old went self.new) }
    {
        match mark {
            Mark::Star => self.times(operand, place),
            Mark::Plus => self.added(alloc, operand, Operator::Plus, place),
            Mark::Minus => self.added(alloc, operand, Operator::Minus, place),
            Mark::Close => self.close(alloc, operand),
            Mark::Comma => self.part(alloc, operand),
            Mark::Semicolon => self.end(alloc, operand),
            _ => Ok(false),
        }
    }

    // Reads a token after an operand.
    fn had(&mut self, alloc: Global, operand: NodeId, token: &Token) -> Result<bool, AllocError>
        ensures { IfOk result (λ went. FromHave (λ f l outer. machine.had f l outer token.now.from token.now.kind) operand self.old went self.new) }
    {
        match &token.kind {
            TokenKind::Mark(mark) => self.marked(alloc, operand, *mark, token.from),
            _ => Ok(false),
        }
    }

    // Reads a token where a statement is wanted.
    fn next_item(&mut self, token: &Token) -> Result<bool, AllocError>
        ensures { IfOk result (λ went. FromScript (λ s. machine.next_item s token.now.from token.now.kind) self.old went self.new) }
    {
        match &token.kind {
            TokenKind::Word(Word::Let) => {
                self.phase = Phase::LetBegun(token.from);
                Ok(true)
            }
            TokenKind::Name(name) => {
                if name.as_str() != "print" {
                    return Ok(false);
                }
                self.phase = Phase::PrintBegun(token.from);
                Ok(true)
            }
            _ => Ok(false),
        }
    }

    // Reads the name that a `let` declares.
    fn let_name(&mut self, place: u32, token: &'a Token) -> Result<bool, AllocError>
        ensures { IfOk result (λ went. FromScript (λ s. machine.let_name s place token.now.from token.now.kind) self.old went self.new) }
    {
        match &token.kind {
            TokenKind::Name(name) => {
                if name.as_str() == "print" {
                    return Ok(false);
                }
                if self.names.contains(name.as_str()) {
                    return Ok(false);
                }
                self.phase = Phase::LetNamed(place, name.as_str());
                Ok(true)
            }
            _ => Ok(false),
        }
    }

    // Reads the `=` of a `let`.
    fn let_value(&mut self, place: u32, name: &'a str, token: &Token) -> Result<bool, AllocError>
        ensures { IfOk result (λ went. (n : ℕ) → FromScript (λ s. machine.let_value s place name.now n token.now.from token.now.kind) self.old went self.new) }
    {
        match &token.kind {
            TokenKind::Mark(Mark::Equals) => {
                self.phase = Phase::LetEquals(place, name);
                Ok(true)
            }
            _ => Ok(false),
        }
    }

    // Reads the first token of what a `let` declares.
    fn value(
        &mut self,
        alloc: Global,
        place: u32,
        name: &'a str,
        token: &'a Token,
    ) -> Result<bool, AllocError>
        ensures { IfOk result (λ went. (n q : ℕ) → FromScript (λ s. machine.valued s place name.now n q token.now.from token.now.kind) self.old went self.new) }
    {
        match &token.kind {
            TokenKind::Word(Word::New) => {
                self.phase = Phase::BeforeFile {
                    place,
                    name,
                    left: &BEFORE_FILE,
                };
                Ok(true)
            }
            _ => {
                self.level = Level::new(alloc);
                self.statement = Statement::Let(place, name);
                self.wanted(alloc, token)
            }
        }
    }

    // Reads a token of an instance through its file's name.
    fn name_file(
        &mut self,
        place: u32,
        name: &'a str,
        left: &'a [Piece],
        token: &'a Token,
    ) -> Result<bool, AllocError>
        ensures { IfOk result (λ went. (n q : ℕ) (read : List grammar.Sign) → FromScript (λ s. machine.file_named s place name.now n q read left.now token.now.from token.now.kind) self.old went self.new) }
    {
        let Some((piece, rest)) = left.split_first() else {
            let TokenKind::Text(file) = &token.kind else {
                return Ok(false);
            };
            self.phase = Phase::AfterFile {
                place,
                name,
                file: file.as_str(),
                left: &AFTER_FILE,
            };
            return Ok(true);
        };
        if !piece.fits(&token.kind) {
            return Ok(false);
        }
        self.phase = Phase::BeforeFile {
            place,
            name,
            left: rest,
        };
        Ok(true)
    }

    // Reads a token of an instance after its file's name through its export's.
    fn name_export(
        &mut self,
        place: u32,
        name: &'a str,
        file: &'a str,
        left: &'a [Piece],
        token: &'a Token,
    ) -> Result<bool, AllocError>
        ensures { IfOk result (λ went. (n q : ℕ) (read : List grammar.Sign) → FromScript (λ s. machine.export_named s place name.now n q file.now read left.now token.now.from token.now.kind) self.old went self.new) }
    {
        let Some((piece, rest)) = left.split_first() else {
            let TokenKind::Name(export) = &token.kind else {
                return Ok(false);
            };
            if export.as_str() == "print" {
                return Ok(false);
            }
            self.phase = Phase::Instanced {
                place,
                name,
                file,
                export: export.as_str(),
            };
            return Ok(true);
        };
        if !piece.fits(&token.kind) {
            return Ok(false);
        }
        self.phase = Phase::AfterFile {
            place,
            name,
            file,
            left: rest,
        };
        Ok(true)
    }

    // Binds a name to an export of a module's instance.
    fn bind(
        &mut self,
        alloc: Global,
        place: u32,
        name: &'a str,
        file: &str,
        export: &str,
    ) -> Result<bool, AllocError>
        ensures { IfOk result (λ went. (n q k : ℕ) (i : grammar.Instance) → file.now ≡ i.file → export.now ≡ i.export → FromScript (λ s. Some (machine.items (grammar.binding s place name.now n q i k))) self.old went self.new) }
    {
        let form = Form::Bind {
            name: PlainString::from_str(alloc, name)?,
            file: PlainString::from_str(alloc, file)?,
            export: PlainString::from_str(alloc, export)?,
        };
        let id = add(&mut self.nodes, form, place)?;
        self.top.push(id)?;
        let _ = self.names.insert(name)?;
        let _ = self.functions.insert(name)?;
        self.phase = Phase::Items;
        Ok(true)
    }

    // Reads the `;` after an instance.
    fn end_bind(
        &mut self,
        alloc: Global,
        place: u32,
        name: &'a str,
        file: &str,
        export: &str,
        token: &Token,
    ) -> Result<bool, AllocError>
        ensures { IfOk result (λ went. (n q : ℕ) (i : grammar.Instance) → file.now ≡ i.file → export.now ≡ i.export → FromScript (λ s. machine.bind_ended s place name.now n q i token.now.from token.now.kind) self.old went self.new) }
    {
        match &token.kind {
            TokenKind::Mark(Mark::Semicolon) => self.bind(alloc, place, name, file, export),
            _ => Ok(false),
        }
    }

    // Reads the `(` of a `print`.
    fn open_print(&mut self, place: u32, token: &Token) -> Result<bool, AllocError>
        ensures { IfOk result (λ went. FromScript (λ s. machine.print_opened s place token.now.from token.now.kind) self.old went self.new) }
    {
        match &token.kind {
            TokenKind::Mark(Mark::Open) => {
                self.phase = Phase::Argument(place);
                Ok(true)
            }
            _ => Ok(false),
        }
    }

    // Reads a token where the first argument of a `print` or its `)` is wanted.
    fn argued(&mut self, alloc: Global, place: u32, token: &'a Token) -> Result<bool, AllocError>
        ensures { IfOk result (λ went. (o : ℕ) → FromScript (λ s. machine.argued s place o token.now.from token.now.kind) self.old went self.new) }
    {
        match &token.kind {
            TokenKind::Mark(Mark::Close) => {
                self.phase = Phase::Printed(place, PlainList::new(alloc));
                Ok(true)
            }
            _ => {
                self.level = Level::new(alloc);
                self.statement = Statement::Print(place, PlainList::new(alloc));
                self.wanted(alloc, token)
            }
        }
    }

    // Reads the `;` of a `print`.
    fn end_print(
        &mut self,
        place: u32,
        arguments: PlainList<NodeId>,
        token: &Token,
    ) -> Result<bool, AllocError>
        ensures { IfOk result (λ went. (o : ℕ) (a : grammar.Arguments) (k : ℕ) → ArgumentsShow a self.old.nodes arguments → FromScript (λ s. machine.print_ended s place o a k token.now.from token.now.kind) self.old went self.new) }
    {
        match &token.kind {
            TokenKind::Mark(Mark::Semicolon) => {
                let id = add(&mut self.nodes, Form::Print { arguments }, place)?;
                self.top.push(id)?;
                self.phase = Phase::Items;
                Ok(true)
            }
            _ => Ok(false),
        }
    }

    /// Reads a token, and answers whether one more may come there.
    pub fn step(&mut self, alloc: Global, token: &'a Token) -> Result<bool, AllocError>
        ensures { IfOk result (λ went. (s : machine.State) → Shows s self.old → Follows (machine.step s (grammar.sign_of token.now)) went self.new) }
    {
        match mem::replace(&mut self.phase, Phase::Items) {
            Phase::Items => self.next_item(token),
            Phase::LetBegun(place) => self.let_name(place, token),
            Phase::LetNamed(place, name) => self.let_value(place, name, token),
            Phase::LetEquals(place, name) => self.value(alloc, place, name, token),
            Phase::BeforeFile { place, name, left } => self.name_file(place, name, left, token),
            Phase::AfterFile {
                place,
                name,
                file,
                left,
            } => self.name_export(place, name, file, left, token),
            Phase::Instanced {
                place,
                name,
                file,
                export,
            } => self.end_bind(alloc, place, name, file, export, token),
            Phase::PrintBegun(place) => self.open_print(place, token),
            Phase::Argument(place) => self.argued(alloc, place, token),
            Phase::Printed(place, arguments) => self.end_print(place, arguments, token),
            Phase::Want => self.wanted(alloc, token),
            Phase::Called(callee) => self.open_call(alloc, callee, token),
            Phase::Passing => self.pass(alloc, token),
            Phase::Have(operand) => self.had(alloc, operand, token),
        }
    }

    /// Whether a script that binds a name declares none of those by which it does.
    pub fn keeps_names(&self) -> bool
        ensures { (s : grammar.Script) → Held s self.now → IsTrue result ↔ grammar.KeepsNames s }
    {
        if self.functions.is_empty() {
            return true;
        }
        if self.names.contains("readbuffer") {
            return false;
        }
        !self.names.contains("WebAssembly")
    }
}
