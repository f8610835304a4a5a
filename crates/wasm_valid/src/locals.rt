//! The locals of a function.

ghost use Rattle.std.specs.Prelude.{◌≡◌, ◌+◌, ◌++◌, length, replicate, flat_map, nat_le, slice_get, is_some, IfOk, IfSome};
ghost use Rattle.wasm_valid.specs.Typing.{count_locals, most_locals};

use std::alloc::{AllocError, Global};
use std::marker::Model;
use wasm_syntax::ValType;

/// The locals that a function may have with its parameters.
const MOST_LOCALS: usize = 50_000;

/// The types of a function's locals, the parameters first. They are never laid out: a few bytes may declare many.
#[derive(Drop)]
pub struct Locals<'a> {
    params: &'a [ValType],
    runs: &'a [(u32, ValType)],
    /// For each run how many locals there are up to its end.
    ends: Vec<usize>,
}

impl<'a> Model for Locals<'a> {
    ghost use Rattle.std.specs.Prelude.{◌≡◌, ◌++◌, List, length, replicate, flat_map};
    ghost use Rattle.wasm_syntax.specs.declared.types.ValType.{ValType};
    ghost use Rattle.wasm_valid.specs.Views.{ends_from};

    ghost Value = { List ValType };

    ghost view = { λ locals. locals.params.now ++ flat_map (λ run. replicate run.0 run.1) locals.runs.now };

    ghost invariant = { λ locals. locals.ends.items ≡ ends_from (length locals.params.now) locals.runs.now };
}

impl<'a> Locals<'a> {
    /// The locals of a function with these parameters and runs of other locals, or none where there are too many.
    #[tactic(auto, unfolding(crate::specs::Typing::most_locals))]
    pub fn new(
        alloc: Global,
        params: &'a [ValType],
        runs: &'a [(u32, ValType)],
    ) -> Result<Option<Locals<'a>>, AllocError>
        ensures few { IfOk result (λ locals. is_some locals ≡ nat_le (length params.now + count_locals runs.now) most_locals) }
        ensures types { IfOk result (λ locals. IfSome locals (λ types. types ≡ params.now ++ flat_map (λ run. replicate run.0 run.1) runs.now)) }
    {
        let mut end = params.len();
        if end > MOST_LOCALS {
            return Ok(None);
        }
        let mut ends = Vec::new(alloc);
        for run in runs {
            if run.0 as usize > MOST_LOCALS - end {
                return Ok(None);
            }
            end += run.0 as usize;
            ends.push(end)?;
        }
        Ok(Some(Locals { params, runs, ends }))
    }

    /// The type of the local with this index.
    pub fn get(&self, index: u32) -> Option<ValType>
        ensures { result ≡ slice_get self.now index }
    {
        let index = index as usize;
        if index < self.params.len() {
            return Some(self.params[index]);
        }
        let before = self.ends.partition_point(
            |end: &usize| -> bool
                ensures { result ≡ nat_le end.now index }
            { *end <= index },
        );
        match self.runs.get(before) {
            Some(run) => Some(run.1),
            None => None,
        }
    }
}
