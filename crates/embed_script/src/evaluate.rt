ghost use Rattle.std.specs.Prelude.{◌≡◌, ℕ, suc, ◌+◌, ◌<◌, ◌≤◌, List, [], ◌∷◌, ◌++◌, length, slice_get, Some, Result, Ok, OnOk, IsSomeAnd, pos};
ghost use Rattle.small_parser.specs.declared.script.Node.{Node};
ghost use Rattle.small_parser.specs.Grammar.{Sum};
ghost use Rattle.small_parser.specs.Shows.{SumShows, IsCall};
ghost use Rattle.embed_script.specs.declared.value.Value.TheVariants as values;
ghost use Rattle.embed_script.specs.Operators.{number_of};
ghost use Rattle.embed_script.specs.Ends.{End, and_then, at_place, keeping};
ghost use Rattle.embed_script.specs.Evaluation.{Bindings, Answer, sum_value, named, called};
ghost use Rattle.embed_script.specs.declared.state.State.{State};
ghost use Rattle.embed_script.specs.Serving.{Serves};
ghost use Rattle.embed_script.specs.Stops.{Meets, MeetsIn};
ghost use Rattle.embed_script.specs.Tasks.{Todo, evaluates, applies, calls, IsBoundAs, perform, Fits, TodoShows, TodosShow, top_first, chain_tasks, call_tasks, tasks_size, task_size, size_of, Steps};

use crate::functions;
use crate::operators::{number, operate};
use crate::state::State;
use crate::stop::{Stop, refuse};
use crate::value::{Bound, Value};
use embed_base::{OutsideKind, PlainString, SharedString};
use small_parser::{Form, Node, NodeId, Operand, Operator};
use std::alloc::{AllocError, Global};
use std::collections::HashMap;
use wasm_store::laws::{order, types_stay};

/// What the names that were declared are bound to.
pub(crate) type Names = HashMap<String, Bound>;

/// A step of an evaluation: an expression's node to evaluate, an operator to apply to the last two values, or a call's node,
/// whose arguments are the last values.
#[derive(Clone, Copy, Debug)]
pub(crate) enum Task {
    Evaluate(NodeId),
    Operate(Operator, u32),
    Call(NodeId),
}

/// A Number's literal. One that a token can be lies in the profile.
fn literal(place: u32, value: u64) -> Result<Value, Stop>
    ensures { Meets result (at_place place (number_of (pos value))) }
{
    number(place, i64::try_from(value).ok())
}

/// A text's literal.
fn text_value(alloc: Global, text: &PlainString) -> Result<Value, Stop>
    ensures { Meets result (Ok (values.Text text.now)) }
{
    let text = SharedString::from_str(alloc, text.as_str())?;
    Ok(Value::Text(text))
}

/// The value of a name. A script's names that are operands have one.
fn named_value(names: &Names, name: &PlainString, place: u32) -> Result<Value, Stop>
    ensures { (b : Bindings) → IsBoundAs b names.now → Meets result (named place (b name.now)) }
{
    match names.get(name.as_str()) {
        Some(Bound::Value(value)) => Ok(value.clone()?),
        Some(Bound::Function(_)) => Err(refuse(place, OutsideKind::NotYet)),
        None => Err(refuse(place, OutsideKind::NotYet)),
    }
}

/// A call of a name with these arguments. A script's names that are called are functions.
fn call_named(
    alloc: Global,
    names: &Names,
    name: &PlainString,
    place: u32,
    arguments: &[Value],
    state: &mut State,
) -> Result<Value, Stop>
    requires { Serves names.now state.old.store }
    ensures meets { (b : Bindings) → IsBoundAs b names.now → MeetsIn result state.new (called place (b name.now) arguments.now state.old) }
    ensures serves { Serves names.now state.new.store }
{
    order();
    types_stay();
    match names.get(name.as_str()) {
        Some(Bound::Function(function)) => {
            functions::call(alloc, *function, place, arguments, state)
        }
        Some(Bound::Value(_)) => Err(refuse(place, OutsideKind::NotYet)),
        None => Err(refuse(place, OutsideKind::NotYet)),
    }
}

/// Puts the tasks of a chain on top: its operands, each but the first followed by the operator before it.
fn push_chain(tasks: &mut Vec<Task>, left: &[Operand], last: NodeId) -> Result<(), AllocError>
    ensures { OnOk result (top_first tasks.new ≡ chain_tasks left.now last ++ top_first tasks.old) }
{
    let mut next = last;
    let mut at = left.len();
    while at > 0 {
        at -= 1;
        let operand = left[at];
        tasks.push(Task::Operate(operand.operator, operand.place))?;
        tasks.push(Task::Evaluate(next))?;
        next = operand.node;
    }
    tasks.push(Task::Evaluate(next))?;
    Ok(())
}

/// Puts the tasks of a call on top: its arguments, and then itself.
fn push_call(tasks: &mut Vec<Task>, arguments: &[NodeId], id: NodeId) -> Result<(), AllocError>
    ensures { OnOk result (top_first tasks.new ≡ call_tasks arguments.now id ++ top_first tasks.old) }
{
    tasks.push(Task::Call(id))?;
    let mut at = arguments.len();
    while at > 0 {
        at -= 1;
        tasks.push(Task::Evaluate(arguments[at]))?;
    }
    Ok(())
}

/// An evaluation at work: the tasks that are left and the values that operators and calls wait for, each with the next one
/// last.
#[derive(Drop)]
struct Evaluation {
    tasks: Vec<Task>,
    values: Vec<Value>,
}

impl Evaluation {
    /// Puts a value on the values, or hands on why there is none.
    fn give(&mut self, value: Result<Value, Stop>) -> Result<(), Stop>
        ensures steps { (nodes : List Node) (b : Bindings) (left : State) (answer : Result Value End) (ts : List Todo) → Meets value answer → TodosShow nodes ts (top_first self.old.tasks) → Fits ts (suc (length self.old.values.items)) → Steps result nodes b (and_then (keeping left answer) (λ v. perform b ts (v.0 ∷ top_first self.old.values) v.1)) self.new.tasks self.new.values left }
        ensures kept { self.new.tasks ≡ self.old.tasks }
    {
        match value {
            Ok(value) => {
                self.values.push(value)?;
                Ok(())
            }
            Err(stop) => Err(stop),
        }
    }

    /// Takes the task of an expression: an operand gives its value, and a chain its operands' tasks.
    fn expand(
        &mut self,
        alloc: Global,
        nodes: &[Node],
        names: &Names,
        id: NodeId,
    ) -> Result<(), Stop>
        requires { (e : Sum) × SumShows e nodes.now id.0 }
        ensures steps { (b : Bindings) (left : State) → IsBoundAs b names.now → (e : Sum) → SumShows e nodes.now id.0 → (ts : List Todo) → TodosShow nodes.now ts (top_first self.old.tasks) → Fits ts (suc (length self.old.values.items)) → Steps result nodes.now b (perform b (evaluates e ∷ ts) (top_first self.old.values) left) self.new.tasks self.new.values left }
        ensures smaller { OnOk result (tasks_size nodes.now (top_first self.new.tasks) < size_of nodes.now (suc id.0) id.0 + tasks_size nodes.now (top_first self.old.tasks)) }
    {
        let node = &nodes[id.0];
        match &node.form {
            Form::Chain(left, last) => {
                push_chain(&mut self.tasks, left.as_slice(), *last)?;
                Ok(())
            }
            Form::Call {
                callee: _,
                arguments,
            } => {
                push_call(&mut self.tasks, arguments.as_slice(), id)?;
                Ok(())
            }
            Form::Number(value) => self.give(literal(node.place, *value)),
            Form::Text(text) => self.give(text_value(alloc, text)),
            Form::Name(name) => self.give(named_value(names, name, node.place)),
            Form::Let { .. } | Form::Bind { .. } | Form::Print { .. } => unreachable!(),
        }
    }

    /// Takes the task of an operator: the last two values become one.
    fn apply(&mut self, alloc: Global, operator: Operator, place: u32) -> Result<(), Stop>
        requires { 2 ≤ length self.old.values.items }
        ensures steps { (nodes : List Node) (b : Bindings) (left : State) (ts : List Todo) → TodosShow nodes ts (top_first self.old.tasks) → Fits (applies operator place ∷ ts) (length self.old.values.items) → Steps result nodes b (perform b (applies operator place ∷ ts) (top_first self.old.values) left) self.new.tasks self.new.values left }
        ensures kept { self.new.tasks ≡ self.old.tasks }
    {
        let right = self.values.pop().unwrap();
        let left = self.values.pop().unwrap();
        self.give(operate(alloc, operator, place, left, &right))
    }

    /// Takes the task of a call: its arguments, which are the last values, become what it gives.
    fn call(
        &mut self,
        alloc: Global,
        names: &Names,
        callee: &PlainString,
        place: u32,
        count: usize,
        state: &mut State,
    ) -> Result<(), Stop>
        requires enough { count ≤ length self.old.values.items }
        requires serves { Serves names.now state.old.store }
        ensures steps { (nodes : List Node) (b : Bindings) → IsBoundAs b names.now → (ts : List Todo) → TodosShow nodes ts (top_first self.old.tasks) → Fits (calls callee.now place count ∷ ts) (length self.old.values.items) → Steps result nodes b (perform b (calls callee.now place count ∷ ts) (top_first self.old.values) state.old) self.new.tasks self.new.values state.new }
        ensures kept { self.new.tasks ≡ self.old.tasks }
        ensures serves { Serves names.now state.new.store }
    {
        let at = self.values.len() - count;
        let arguments = &self.values.as_slice()[at..];
        match call_named(alloc, names, callee, place, arguments, state) {
            Ok(value) => {
                self.values.truncate(at);
                self.give(Ok(value))
            }
            Err(stop) => Err(stop),
        }
    }

    /// Takes the task of a call's node.
    fn call_at(
        &mut self,
        alloc: Global,
        nodes: &[Node],
        names: &Names,
        id: NodeId,
        state: &mut State,
    ) -> Result<(), Stop>
        requires shows { (w : List ℕ) × (k : ℕ) × (count : ℕ) × TodoShows nodes.now (calls w k count) (Task.Call id) × (count ≤ length self.old.values.items) }
        requires serves { Serves names.now state.old.store }
        ensures steps { (b : Bindings) → IsBoundAs b names.now → (w : List ℕ) (k count : ℕ) → TodoShows nodes.now (calls w k count) (Task.Call id) → (ts : List Todo) → TodosShow nodes.now ts (top_first self.old.tasks) → Fits (calls w k count ∷ ts) (length self.old.values.items) → Steps result nodes.now b (perform b (calls w k count ∷ ts) (top_first self.old.values) state.old) self.new.tasks self.new.values state.new }
        ensures kept { self.new.tasks ≡ self.old.tasks }
        ensures serves { Serves names.now state.new.store }
    {
        let node = &nodes[id.0];
        match &node.form {
            Form::Call { callee, arguments } => {
                self.call(alloc, names, callee, node.place, arguments.len(), state)
            }
            _ => unreachable!(),
        }
    }

    /// Takes the next task.
    fn step(
        &mut self,
        alloc: Global,
        nodes: &[Node],
        names: &Names,
        task: Task,
        state: &mut State,
    ) -> Result<(), Stop>
        requires serves { Serves names.now state.old.store }
        requires shows { (t : Todo) × (ts : List Todo) × TodosShow nodes.now (t ∷ ts) (task ∷ top_first self.old.tasks) × Fits (t ∷ ts) (length self.old.values.items) }
        ensures steps { (b : Bindings) → IsBoundAs b names.now → (t : Todo) (ts : List Todo) → TodosShow nodes.now (t ∷ ts) (task ∷ top_first self.old.tasks) → Fits (t ∷ ts) (length self.old.values.items) → Steps result nodes.now b (perform b (t ∷ ts) (top_first self.old.values) state.old) self.new.tasks self.new.values state.new }
        ensures serves { Serves names.now state.new.store }
        ensures smaller { OnOk result (tasks_size nodes.now (top_first self.new.tasks) < task_size nodes.now task + tasks_size nodes.now (top_first self.old.tasks)) }
    {
        match task {
            Task::Evaluate(id) => self.expand(alloc, nodes, names, id),
            Task::Operate(operator, place) => self.apply(alloc, operator, place),
            Task::Call(id) => self.call_at(alloc, nodes, names, id, state),
        }
    }
}

/// The value of the expression that a node shows.
pub(crate) fn evaluate(
    alloc: Global,
    nodes: &[Node],
    names: &Names,
    id: NodeId,
    state: &mut State,
) -> Result<Value, Stop>
    requires serves { Serves names.now state.old.store }
    requires shows { (e : Sum) × SumShows e nodes.now id.0 }
    ensures meets { (b : Bindings) → IsBoundAs b names.now → (e : Sum) → SumShows e nodes.now id.0 → MeetsIn result state.new (sum_value b e state.old) }
    ensures serves { Serves names.now state.new.store }
{
    let mut evaluation = Evaluation {
        tasks: Vec::new(alloc),
        values: Vec::new(alloc),
    };
    evaluation.tasks.push(Task::Evaluate(id))?;
    while let Some(task) = evaluation.tasks.pop() {
        evaluation.step(alloc, nodes, names, task, state)?;
    }
    let value = evaluation.values.pop().unwrap();
    Ok(value)
}
