//! A list of operands, kept as runs: a type's results are lent, so that a call costs no more than its instruction.

ghost use Rattle.std.specs.Prelude.{◌≡◌, ◌<◌, ◌-◌, ◌++◌, ◌∷◌, [], length, reverse, map, take, option_to_list, IsSome, ◌↔◌, Some, is_some, is_ok, cond, MatchOption};
ghost use Rattle.wasm_valid.specs.Operands.{take_all};
ghost use Rattle.wasm_valid.specs.Runs.{of_run, left_in, above, Shortens};

use crate::operands::type_fits;
use std::alloc::{AllocError, Global};
use std::marker::Model;
use wasm_syntax::ValType;

/// Operands of lent types, and one operand on top of them.
#[derive(Clone, Copy)]
pub struct Run<'a> {
    pub types: &'a [ValType],
    pub last: Option<ValType>,
}

/// What is left of a list of operands: runs, and lent types on top of them.
#[derive(Clone, Copy)]
pub struct Rest<'b, 'a> {
    pub runs: &'b [Run<'a>],
    pub types: &'a [ValType],
}

/// A list of operands, the topmost last.
#[derive(Drop)]
pub struct Runs<'a> {
    runs: Vec<Run<'a>>,
    len: usize,
}

impl<'a> Model for Runs<'a> {
    ghost use Rattle.std.specs.Prelude.{◌≡◌, List, Option, length};
    ghost use Rattle.wasm_syntax.specs.declared.types.ValType.{ValType};
    ghost use Rattle.wasm_valid.specs.Runs.{laid_out};

    ghost Value = { List (Option ValType) };

    ghost view = { λ list. laid_out list.runs.items };

    ghost invariant = { λ list. list.len ≡ length (laid_out list.runs.items) };
}

/// The topmost of the operands that are left, which is taken from them.
fn next<'b, 'a>(rest: &mut Rest<'b, 'a>) -> Option<ValType>
    requires { 0 < length (left_in rest.old) }
    ensures { left_in rest.old ≡ left_in rest.new ++ result ∷ [] }
{
    match rest.types {
        [types @ .., ty] => {
            rest.types = types;
            Some(*ty)
        }
        [] => match rest.runs {
            [runs @ .., run] => {
                rest.runs = runs;
                rest.types = run.types;
                run.last
            }
            [] => None,
        },
    }
}

/// A run without its topmost operand, or none where no other one is there.
fn lowered<'a>(run: Run<'a>) -> Option<Run<'a>>
    ensures { MatchOption result (of_run run.entry ≡ run.entry.last ∷ []) (λ lower. of_run run.entry ≡ of_run lower ++ run.entry.last ∷ []) }
{
    match run.types {
        [types @ .., ty] => Some(Run {
            types,
            last: Some(*ty),
        }),
        [] => None,
    }
}

impl<'a> Runs<'a> {
    /// No operands.
    pub fn new(alloc: Global) -> Runs<'a>
        ensures { result ≡ [] }
    {
        Runs {
            runs: Vec::new(alloc),
            len: 0,
        }
    }

    /// How many operands there are.
    pub fn len(&self) -> usize
        ensures { result ≡ length self.now }
    {
        self.len
    }

    /// Puts a run on top. More than 2^64 - 1 operands have no room.
    fn push_run(&mut self, run: Run<'a>) -> Result<(), AllocError>
        ensures { self.new ≡ cond (is_ok result) (self.old ++ of_run run.entry) self.old }
    {
        match self.len.checked_add(run.types.len()) {
            Some(len) => {
                if len == usize::MAX {
                    return Err(AllocError);
                }
                self.runs.push(run)?;
                self.len = len + 1;
                Ok(())
            }
            None => Err(AllocError),
        }
    }

    /// Puts an operand on top.
    pub fn push(&mut self, ty: Option<ValType>) -> Result<(), AllocError>
        ensures { self.new ≡ cond (is_ok result) (self.old ++ ty ∷ []) self.old }
    {
        self.push_run(Run {
            types: &[],
            last: ty,
        })
    }

    /// Puts operands of these types on top, in their order.
    pub fn push_types(&mut self, types: &'a [ValType]) -> Result<(), AllocError>
        ensures { self.new ≡ cond (is_ok result) (self.old ++ map Some types.now) self.old }
    {
        match types {
            [types @ .., ty] => self.push_run(Run {
                types,
                last: Some(*ty),
            }),
            [] => Ok(()),
        }
    }

    /// Takes the topmost operand.
    pub fn pop(&mut self) -> Option<Option<ValType>>
        ensures items { self.old ≡ self.new ++ option_to_list result }
        ensures variant { IsSome result ↔ (0 < length self.old) }
        ensures len { length self.new ≡ length self.old - 1 }
    {
        let count = self.runs.len();
        if count == 0 {
            return None;
        }
        let run = self.runs[count - 1];
        match lowered(run) {
            Some(lower) => {
                self.runs[count - 1] = lower;
                self.len -= 1;
                Some(run.last)
            }
            None => {
                self.runs.truncate(count - 1);
                self.len -= 1;
                Some(run.last)
            }
        }
    }

    /// Takes the topmost run, or one operand where the run reaches below this length.
    fn shorten(&mut self, len: usize)
        requires { len < length self.old }
        ensures { Shortens len self.old self.new }
    {
        let count = self.runs.len();
        if count == 0 {
            return;
        }
        let size = self.runs[count - 1].types.len();
        if size < self.len - len {
            self.runs.truncate(count - 1);
            self.len -= size + 1;
        } else {
            self.pop();
        }
    }

    /// Leaves the first ones. A block's operands are whole runs, so that each is taken at once.
    pub fn truncate(&mut self, len: usize)
        ensures { self.new ≡ take len self.old }
    {
        while self.len > len {
            self.shorten(len);
        }
    }

    /// Whether the topmost of the operands from `base` on have these types, which stand in their order.
    pub fn has_types(&self, base: usize, any: bool, types: &[ValType]) -> bool
        ensures { result ≡ is_some (take_all (reverse types.now) (above base any self.now)) }
    {
        let mut left = types.len();
        let mut at = self.len;
        let mut rest = Rest {
            runs: self.runs.as_slice(),
            types: &[],
        };
        while left > 0 {
            if at <= base {
                return any;
            }
            left -= 1;
            at -= 1;
            let operand = next(&mut rest);
            if !type_fits(types[left], operand) {
                return false;
            }
        }
        true
    }
}
