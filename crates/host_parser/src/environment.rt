//! The names that are in scope.

ghost use Rattle.std.specs.Prelude.{◌≡◌, ◌∷◌, ◌++◌, [], IfOk, IfSome, reverse, true, false, Some};
ghost use Rattle.host_parser.specs.Names as names;
ghost use Rattle.host_parser.specs.Scoping.{Holds, IsMap};
ghost use Rattle.host_parser.specs.Resolving.{left};
ghost use Rattle.host_parser.specs.declared.binding.Binding.{Binding};
ghost use Rattle.std.specs.Prelude.{List};

use crate::binding::{Binding, Slot, unbound};
use host_nodes::{Declared, Declares};
use std::alloc::{AllocError, Global};
use std::collections::BTreeMap;

/// A name that a scope has bound, with what it was bound to around that scope.
#[derive(Clone, Copy)]
pub struct Shadow<'a> {
    pub name: &'a str,
    pub shadowed: Option<Binding>,
}

/// The names that are in scope, in order, so that none that are chosen for it take longer, and the local ones among them, the
/// innermost last.
#[derive(Drop)]
pub struct Scoped<'a> {
    pub bound: BTreeMap<&'a str, Binding>,
    pub shadows: Vec<Shadow<'a>>,
}

fn is_constant(declares: Declares) -> bool
    ensures { result ≡ names.is_constant declares }
{
    match declares {
        Declares::Constant => true,
        _ => false,
    }
}

impl<'a> Scoped<'a> {
    /// No names. It takes no memory.
    pub fn new(alloc: Global) -> Scoped<'a>
        ensures map { IsMap result.bound.entries [] }
        ensures shadows { result.shadows.items ≡ [] }
    {
        Scoped {
            bound: BTreeMap::new(alloc),
            shadows: Vec::new(alloc),
        }
    }

    /// A global name.
    pub fn declare_global(&mut self, declared: &'a Declared, number: u64) -> Result<(), AllocError>
        ensures map { IfOk result (λ _. (es : List names.Entry) → IsMap self.old.bound.entries es → IsMap self.new.bound.entries (names.global number declared.now ∷ es)) }
        ensures shadows { self.new.shadows ≡ self.old.shadows }
    {
        let slot = Slot {
            number,
            constant: is_constant(declared.declares),
        };
        self.bound
            .insert(declared.name.as_str(), Binding::Global(slot))?;
        Ok(())
    }

    fn declare(&mut self, declared: &'a Declared) -> Result<(), AllocError>
        ensures { IfOk result (λ _. (e : names.Environment) → Holds e self.old → Holds (names.enter_one declared.now e) self.new) }
    {
        let slot = Slot {
            number: self.shadows.len() as u64,
            constant: is_constant(declared.declares),
        };
        let name = declared.name.as_str();
        let shadowed = self.bound.insert(name, Binding::Local(slot))?;
        self.shadows.push(Shadow { name, shadowed })?;
        Ok(())
    }

    /// The names that an inner scope declares.
    pub fn enter(&mut self, declared: &'a [Declared]) -> Result<(), AllocError>
        ensures { IfOk result (λ _. (e : names.Environment) → Holds e self.old → Holds (names.enter declared.now e) self.new) }
    {
        for one in declared {
            self.declare(one)?;
        }
        Ok(())
    }

    fn uncover(&mut self, name: &'a str, shadowed: Option<Binding>) -> Result<(), AllocError>
        ensures map { IfOk result (λ _. (es : List names.Entry) (b : Binding) → shadowed ≡ names.found name.now es → IsMap self.old.bound.entries (names.entry name.now b ∷ es) → IsMap self.new.bound.entries es) }
        ensures shadows { self.new.shadows ≡ self.old.shadows }
    {
        match shadowed {
            Some(binding) => {
                self.bound.insert(name, binding)?;
            }
            None => {
                self.bound.remove(name);
            }
        }
        Ok(())
    }

    fn leave_one(&mut self) -> Result<(), AllocError>
        ensures { IfOk result (λ _. (e : names.Environment) → Holds e self.old → Holds (left 1 e) self.new) }
    {
        if let Some(shadow) = self.shadows.pop() {
            self.uncover(shadow.name, shadow.shadowed)?;
        }
        Ok(())
    }

    /// So many of the innermost names go out of scope.
    pub fn leave(&mut self, count: usize) -> Result<(), AllocError>
        ensures { IfOk result (λ _. (e : names.Environment) → Holds e self.old → Holds (left count e) self.new) }
    {
        for _ in 0..count {
            self.leave_one()?;
        }
        Ok(())
    }

    /// What a name is bound to.
    pub fn binding_of(&self, name: &str) -> Binding
        ensures { (e : names.Environment) → Holds e self.now → result ≡ names.binding_of name.now e }
    {
        match self.bound.get(name) {
            Some(binding) => *binding,
            None => unbound(name),
        }
    }
}
