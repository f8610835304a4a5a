ghost use Rattle.std.specs.Prelude.{◌≡◌, ℕ, List, ◌∷◌, ◌++◌, [], Ok, Err, OnOk, IfOk, string_bytes};
ghost use Rattle.small_parser.specs.Grammar as grammar;
ghost use Rattle.small_parser.specs.Shows.{SumShows, ScriptShows};
ghost use Rattle.embed_script.specs.Ends.{done, charge};
ghost use Rattle.embed_script.specs.Functions.{Modules, instance_of};
ghost use Rattle.embed_script.specs.Evaluation.{Bindings, value, function, sum_value};
ghost use Rattle.embed_script.specs.Outcome.{Statement, going, after, bound, effect, performed, line_of, outcome_of, outcome_of_progress, transcript_of, Progress, IsRunEnd};
ghost use Rattle.embed_script.specs.Serving.{Serves};
ghost use Rattle.embed_script.specs.Stops.{MeetsInAs, listed_values_of};
ghost use Rattle.embed_script.specs.Tasks.{IsBoundAs, SumsShow, values_of};
ghost use Rattle.embed_script.specs.ModuleFiles.{AreDecodings};
ghost use Rattle.embed_script.specs.Runs.{StatementShows, HasPrinted, Performs};

use crate::charge::{CALL, STATEMENT, charge};
use crate::end_line::{
    add_charge, add_compile_error, add_range_error, add_refusal, add_runtime_error,
};
use crate::evaluate::{Names, evaluate};
use crate::instances::instance;
use crate::module_file::ModuleFile;
use crate::state::State;
use crate::stop::Stop;
use crate::transcript::Transcript;
use crate::value::{Bound, Value};
use embed_base::{PlainString, Status};
use small_parser::{Form, Node, NodeId, Script};
use std::alloc::{AllocError, Global};
use std::collections::HashMap;
use wasm_store::Store;
use wasm_store::laws::types_stay;

/// The values of expressions, from left to right.
fn evaluate_all(
    alloc: Global,
    nodes: &[Node],
    names: &Names,
    ids: &[NodeId],
    state: &mut State,
) -> Result<Vec<Value>, Stop>
    requires serves { Serves names.now state.old.store }
    requires shows { (es : List grammar.Sum) × SumsShow nodes.now es ids.now }
    ensures meets { (b : Bindings) → IsBoundAs b names.now → (es : List grammar.Sum) → SumsShow nodes.now es ids.now → MeetsInAs listed_values_of result state.new (values_of b es state.old) }
    ensures serves { Serves names.now state.new.store }
{
    let mut values = Vec::new(alloc);
    for id in ids {
        let value = evaluate(alloc, nodes, names, *id, state)?;
        values.push(value)?;
    }
    Ok(values)
}

/// Adds a line: the shown forms, with one space between two of them.
fn add_line(text: &mut String, values: &[Value]) -> Result<(), AllocError>
    ensures { OnOk result (string_bytes text.new ≡ string_bytes text.old ++ (line_of values.now ++ 10 ∷ [])) }
{
    for (index, value) in values.iter().enumerate() {
        if index > 0 {
            text.push_str(" ")?;
        }
        value.show(text)?;
    }
    text.push_str("\n")?;
    Ok(())
}

/// A run at work: what names are bound to, the store and what is left of the budget, and the lines printed so far.
#[derive(Drop)]
struct Run {
    names: Names,
    state: State,
    text: String,
}

impl Run {
    /// `let NAME = VALUE;`
    fn declare(
        &mut self,
        alloc: Global,
        nodes: &[Node],
        name: &PlainString,
        initial: NodeId,
    ) -> Result<(), Stop>
        requires serves { Serves self.old.names self.old.state.store }
        requires shows { (e : grammar.Sum) × SumShows e nodes.now initial.0 }
        ensures performs { (b : Bindings) (lines : List (List ℕ)) → IsBoundAs b self.old.names → HasPrinted lines self.old → (e : grammar.Sum) → SumShows e nodes.now initial.0 → Performs result (after lines (sum_value b e self.old.state) (λ v. going (bound b name.now (value v.0)) v.1 lines)) self.new }
        ensures serves { OnOk result (Serves self.new.names self.new.state.store) }
    {
        let value = evaluate(alloc, nodes, &self.names, initial, &mut self.state)?;
        let name = String::from_str(alloc, name.as_str())?;
        self.names.insert(name, Bound::Value(value))?;
        Ok(())
    }

    /// `let NAME = new WebAssembly.Instance(new WebAssembly.Module(readbuffer(FILE))).exports.EXPORT;`
    fn bind(
        &mut self,
        alloc: Global,
        files: &[ModuleFile],
        name: &PlainString,
        file: &PlainString,
        export: &PlainString,
        place: u32,
    ) -> Result<(), Stop>
        requires { Serves self.old.names self.old.state.store }
        ensures performs { (modules : Modules) → AreDecodings files.now modules → (b : Bindings) (lines : List (List ℕ)) → IsBoundAs b self.old.names → HasPrinted lines self.old → Performs result (after lines (instance_of modules file.now export.now place self.old.state) (λ f. going (bound b name.now (function f.0)) f.1 lines)) self.new }
        ensures serves { OnOk result (Serves self.new.names self.new.state.store) }
    {
        types_stay();
        let function = instance(
            alloc,
            files,
            file.as_str(),
            export.as_str(),
            place,
            &mut self.state,
        )?;
        let name = String::from_str(alloc, name.as_str())?;
        self.names.insert(name, Bound::Function(function))?;
        Ok(())
    }

    /// Prints a line, after its charge.
    fn print_line(&mut self, values: &[Value]) -> Result<(), Stop>
        requires { Serves self.old.names self.old.state.store }
        ensures performs { (b : Bindings) (lines : List (List ℕ)) → IsBoundAs b self.old.names → HasPrinted lines self.old → Performs result (after lines (charge 1 self.old.state) (λ rest. going b rest (lines ++ line_of values.now ∷ []))) self.new }
        ensures serves { OnOk result (Serves self.new.names self.new.state.store) }
    {
        match charge(CALL, &mut self.state) {
            Ok(()) => {
                add_line(&mut self.text, values)?;
                Ok(())
            }
            Err(stop) => Err(stop),
        }
    }

    /// `print(ARGUMENTS);`
    fn print(&mut self, alloc: Global, nodes: &[Node], arguments: &[NodeId]) -> Result<(), Stop>
        requires serves { Serves self.old.names self.old.state.store }
        requires shows { (es : List grammar.Sum) × SumsShow nodes.now es arguments.now }
        ensures performs { (b : Bindings) (lines : List (List ℕ)) → IsBoundAs b self.old.names → HasPrinted lines self.old → (es : List grammar.Sum) → SumsShow nodes.now es arguments.now → Performs result (after lines (values_of b es self.old.state) (λ vs. after lines (charge 1 vs.1) (λ rest. going b rest (lines ++ line_of vs.0 ∷ [])))) self.new }
        ensures serves { OnOk result (Serves self.new.names self.new.state.store) }
    {
        let values = evaluate_all(alloc, nodes, &self.names, arguments, &mut self.state)?;
        self.print_line(values.as_slice())
    }

    /// Does what a statement says.
    fn effect(
        &mut self,
        alloc: Global,
        nodes: &[Node],
        files: &[ModuleFile],
        id: NodeId,
    ) -> Result<(), Stop>
        requires serves { Serves self.old.names self.old.state.store }
        requires shows { (s : Statement) × StatementShows nodes.now s id }
        ensures performs { (modules : Modules) → AreDecodings files.now modules → (b : Bindings) (lines : List (List ℕ)) → IsBoundAs b self.old.names → HasPrinted lines self.old → (s : Statement) → StatementShows nodes.now s id → Performs result (effect modules b self.old.state lines s) self.new }
        ensures serves { OnOk result (Serves self.new.names self.new.state.store) }
    {
        let node = &nodes[id.0];
        match &node.form {
            Form::Let { name, value } => self.declare(alloc, nodes, name, *value),
            Form::Bind { name, file, export } => {
                self.bind(alloc, files, name, file, export, node.place)
            }
            Form::Print { arguments } => self.print(alloc, nodes, arguments.as_slice()),
            Form::Number(_) | Form::Text(_) | Form::Name(_) | Form::Chain(..) | Form::Call { .. } =>
                unreachable!(),
        }
    }

    /// Performs a statement.
    fn perform(
        &mut self,
        alloc: Global,
        nodes: &[Node],
        files: &[ModuleFile],
        id: NodeId,
    ) -> Result<(), Stop>
        requires serves { Serves self.old.names self.old.state.store }
        requires shows { (s : Statement) × StatementShows nodes.now s id }
        ensures performs { (modules : Modules) → AreDecodings files.now modules → (b : Bindings) (lines : List (List ℕ)) → IsBoundAs b self.old.names → HasPrinted lines self.old → (s : Statement) → StatementShows nodes.now s id → Performs result (performed modules (going b self.old.state lines) s) self.new }
        ensures serves { OnOk result (Serves self.new.names self.new.state.store) }
    {
        match charge(STATEMENT, &mut self.state) {
            Ok(()) => self.effect(alloc, nodes, files, id),
            Err(stop) => Err(stop),
        }
    }
}

impl Run {
    /// The transcript of a run that stopped.
    fn stopped(self, stop: Stop) -> Result<Transcript, AllocError>
        ensures exact { (p : Progress) → Performs {A = Unit {0}} (Err stop) p self → IfOk result (λ t. t ≡ transcript_of (outcome_of_progress p)) }
        ensures end { IfOk result (λ t. IsRunEnd t.status) }
    {
        let Run {
            names: _,
            state: _,
            mut text,
        } = self;
        match stop {
            Stop::NoMemory => Err(AllocError),
            Stop::CompileError => {
                add_compile_error(&mut text)?;
                Ok(Transcript {
                    status: Status::Uncaught,
                    text: PlainString::from_string(text),
                })
            }
            Stop::RuntimeError => {
                add_runtime_error(&mut text)?;
                Ok(Transcript {
                    status: Status::Uncaught,
                    text: PlainString::from_string(text),
                })
            }
            Stop::RangeError => {
                add_range_error(&mut text)?;
                Ok(Transcript {
                    status: Status::Uncaught,
                    text: PlainString::from_string(text),
                })
            }
            Stop::Outside(refusal) => {
                add_refusal(&mut text, refusal)?;
                Ok(Transcript {
                    status: Status::Outside,
                    text: PlainString::from_string(text),
                })
            }
            Stop::Budget { needs, left } => {
                add_charge(&mut text, needs, left)?;
                Ok(Transcript {
                    status: Status::Budget,
                    text: PlainString::from_string(text),
                })
            }
        }
    }

    /// The transcript of a run that came to the script's end.
    fn done(self) -> Transcript
        ensures exact { (lines : List (List ℕ)) → HasPrinted lines self → result ≡ transcript_of (record { lines = lines; end = done }) }
        ensures end { IsRunEnd result.status }
    {
        let Run {
            names: _,
            state: _,
            text,
        } = self;
        Transcript {
            status: Status::Done,
            text: PlainString::from_string(text),
        }
    }
}

/// The transcript of a script's statements.
fn perform_all(
    alloc: Global,
    nodes: &[Node],
    files: &[ModuleFile],
    ids: &[NodeId],
    budget: u64,
) -> Result<Transcript, AllocError>
    requires { (d : grammar.Script) × ScriptShows d nodes.now ids.now }
    ensures exact { (d : grammar.Script) → ScriptShows d nodes.now ids.now → (modules : Modules) → AreDecodings files.now modules → IfOk result (λ t. t ≡ transcript_of (outcome_of modules budget d)) }
    ensures end { IfOk result (λ t. IsRunEnd t.status) }
{
    let mut run = Run {
        names: HashMap::new(alloc),
        state: State {
            store: Store::new(alloc),
            left: budget,
        },
        text: String::new(alloc),
    };
    for id in ids {
        match run.perform(alloc, nodes, files, *id) {
            Ok(()) => {}
            Err(stop) => return run.stopped(stop),
        }
    }
    Ok(run.done())
}

/// The transcript of a script over the module files that it may load, where its run may take so many units.
pub fn run_script(
    alloc: Global,
    script: &Script,
    files: &[ModuleFile],
    budget: u64,
) -> Result<Transcript, AllocError>
    requires { (d : grammar.Script) × ScriptShows d script.now.nodes script.now.top }
    // The transcript is that of the script's definition, over what the files' bytes decode to.
    ensures exact { (d : grammar.Script) → ScriptShows d script.now.nodes script.now.top → (modules : Modules) → AreDecodings files.now modules → IfOk result (λ t. t ≡ transcript_of (outcome_of modules budget d)) }

    // Whatever the bytes decode to, the status is that of a run.
    ensures end { IfOk result (λ t. IsRunEnd t.status) }
{
    perform_all(
        alloc,
        script.nodes.as_slice(),
        files,
        script.top.as_slice(),
        budget,
    )
}
