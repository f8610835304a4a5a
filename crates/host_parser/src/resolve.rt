//! What the references of a script are bound to.

ghost use Rattle.std.specs.Prelude.{◌≡◌, ◌≤◌, ◌<◌, ◌+◌, ◌^◌, ◌∷◌, [], IfOk, reverse, length};
ghost use Rattle.std.specs.Prelude.{List};
ghost use Rattle.host_parser.specs.declared.binding.Binding.{Binding};
ghost use Rattle.host_nodes.specs.declared.form.Mention.{Mention};
ghost use Rattle.host_nodes.specs.declared.form.Mention.TheVariants as mentions;
ghost use Rattle.host_parser.specs.Names as names;
ghost use Rattle.host_parser.specs.Resolving.{resolved};
ghost use Rattle.host_parser.specs.Scoping.{Holds, Leaves};

use crate::binding::Binding;
use crate::environment::Scoped;
use embed_base::PlainList;
use host_nodes::{Declared, Declares, Mention};
use std::alloc::{AllocError, Global};

/// The names that are in scope, how many names each scope that is open declares, the innermost last, and the bindings of the
/// references so far, from the last one on.
#[derive(Drop)]
pub struct Resolver<'a> {
    pub scoped: Scoped<'a>,
    pub counts: Vec<usize>,
    pub bindings: Vec<Binding>,
}

impl<'a> Resolver<'a> {
    fn refer(&mut self, name: &str) -> Result<(), AllocError>
        ensures { IfOk result (λ _. (ms : List Mention) (bs : List Binding) → Leaves self.old (mentions.Name name.now ∷ ms) bs → Leaves self.new ms bs) }
    {
        let binding = self.scoped.binding_of(name);
        self.bindings.push(binding)?;
        Ok(())
    }

    fn enter(&mut self, declared: &'a [Declared]) -> Result<(), AllocError>
        ensures { IfOk result (λ _. (ms : List Mention) (bs : List Binding) → Leaves self.old (mentions.Ends declared.now ∷ ms) bs → Leaves self.new ms bs) }
    {
        self.scoped.enter(declared)?;
        self.counts.push(declared.len())?;
        Ok(())
    }

    fn leave(&mut self) -> Result<(), AllocError>
        ensures { IfOk result (λ _. (ms : List Mention) (bs : List Binding) → Leaves self.old (mentions.Begins ∷ ms) bs → Leaves self.new ms bs) }
    {
        if let Some(count) = self.counts.pop() {
            self.scoped.leave(count)?;
        }
        Ok(())
    }

    fn mention(&mut self, mention: &'a Mention) -> Result<(), AllocError>
        ensures { IfOk result (λ _. (ms : List Mention) (bs : List Binding) → Leaves self.old (mention.now ∷ ms) bs → Leaves self.new ms bs) }
    {
        match mention {
            Mention::Name(name) => self.refer(name.as_str()),
            Mention::Ends(declared) => self.enter(declared.as_slice()),
            Mention::Begins => self.leave(),
        }
    }
}

// How many functions there are among these names.
fn function_count(declared: &[Declared]) -> u64
    ensures counted { result ≡ names.function_count declared.now }
    ensures few { result ≤ length declared.now }
{
    let mut count = 0;
    for one in declared {
        if let Declares::Function = one.declares {
            count += 1;
        }
    }
    count
}

// The names of a script's scope so far, and the numbers of the next function and the next other declaration.
#[derive(Drop)]
struct Numbering<'a> {
    scoped: Scoped<'a>,
    function: u64,
    variable: u64,
}

impl<'a> Numbering<'a> {
    fn number(&mut self, declares: Declares) -> u64
        requires function { self.old.function + 1 < 2 ^ 64 }
        requires variable { self.old.variable + 1 < 2 ^ 64 }
        ensures number { result ≡ names.global_at declares self.old.function self.old.variable }
        ensures function { self.new.function ≡ names.next_function declares self.old.function }
        ensures variable { self.new.variable ≡ names.next_variable declares self.old.variable }
        ensures scoped { self.new.scoped ≡ self.old.scoped }
    {
        match declares {
            Declares::Function => {
                self.function += 1;
                self.function - 1
            }
            _ => {
                self.variable += 1;
                self.variable - 1
            }
        }
    }
}

// The names of a script's scope: its functions have the first numbers.
fn globals<'a>(alloc: Global, declared: &'a [Declared]) -> Result<Scoped<'a>, AllocError>
    ensures { IfOk result (λ s. Holds (names.script_environment declared.now) s) }
{
    let mut numbering = Numbering {
        scoped: Scoped::new(alloc),
        function: 0,
        variable: function_count(declared),
    };
    for one in declared {
        let number = numbering.number(one.declares);
        numbering.scoped.declare_global(one, number)?;
    }
    Ok(numbering.scoped)
}

/// What the references of a script are bound to, in the order of the text, by the names that it declares and what it mentions.
pub fn resolve(
    alloc: Global,
    declared: &[Declared],
    mentions: &[Mention],
) -> Result<PlainList<Binding>, AllocError>
    ensures { IfOk result (λ bs. bs ≡ resolved (names.script_environment declared.now) [] (reverse mentions.now) []) }
{
    let mut resolver = Resolver {
        scoped: globals(alloc, declared)?,
        counts: Vec::new(alloc),
        bindings: Vec::new(alloc),
    };
    let mut at = mentions.len();
    while at > 0 {
        at -= 1;
        resolver.mention(&mentions[at])?;
    }
    let Resolver { mut bindings, .. } = resolver;
    bindings.reverse();
    Ok(PlainList::from_vec(bindings))
}
