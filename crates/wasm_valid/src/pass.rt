//! The pass over a body: one list of operands, one list of open blocks.

ghost use Rattle.std.specs.Prelude.{◌≡◌, ◌+◌, ◌^◌, ◌<◌, ◌≤◌, ◌∷◌, [], length, max, suc, IfOk, OnOk, MatchOption};
ghost use Rattle.wasm_syntax.specs.ValueTypes.{block_type};
ghost use Rattle.wasm_valid.specs.Signatures.{types_in};
ghost use Rattle.wasm_syntax.specs.Sorts.{sort_of, nesting_in};
ghost use Rattle.wasm_valid.specs.Operands.{exactly};
ghost use Rattle.wasm_valid.specs.Piles.{Becomes};
ghost use Rattle.wasm_valid.specs.Typing.{is_block, block_height, most_nested, tested};
ghost use Rattle.wasm_valid.specs.Places.{Frame, IsPlace, Goes, Moves, Closes, BodyIs, NestsAt, frame_at, body_typed, body_tall, opened_by, place_of, rest_of, next_open, step_of};
ghost use Rattle.wasm_valid.specs.Views.{IsSpaces};

use crate::flat::pass_flat;
use crate::locals::Locals;
use crate::opens::{MOST_NESTED, Open, Opens, Outer};
use crate::operands::OperandList;
use crate::spaces::Spaces;
use crate::types::{Types, types_of};
use std::alloc::{AllocError, Global};
use wasm_syntax::{BlockId, BlockType, Instr, Module, Nesting, Sort, ValType};

/// What a step came to.
#[derive(Clone, Copy)]
pub enum Step {
    /// It went on.
    Went,
    /// The body isn't typed.
    Untyped,
    /// The body has ended.
    Ended,
}

/// The parameters and results of a block.
#[derive(Clone, Copy)]
struct Parts {
    params: Types,
    results: Types,
}

/// The parameters and results of a block's type, or none where there is no such type.
fn block_parts(module: &Module, ty: BlockType) -> Option<Parts>
    ensures { MatchOption result (block_type «module».now ty ≡ None) (λ parts. block_type «module».now ty ≡ Some (record { params = types_in «module».now parts.params; results = types_in «module».now parts.results })) }
{
    match ty {
        BlockType::Empty => Some(Parts {
            params: Types::Empty,
            results: Types::Empty,
        }),
        BlockType::One(ty) => Some(Parts {
            params: Types::Empty,
            results: Types::One(ty),
        }),
        BlockType::Index(index) => {
            if (index as usize) < module.types.len() {
                Some(Parts {
                    params: Types::Params(index),
                    results: Types::Results(index),
                })
            } else {
                None
            }
        }
    }
}

/// The block that an instruction opens.
fn opened(nesting: Nesting, parts: Parts) -> Open
    ensures { result ≡ opened_by nesting parts.params parts.results }
{
    Open {
        block: nesting.body,
        at: 0,
        label: if nesting.again {
            parts.params
        } else {
            parts.results
        },
        params: parts.params,
        results: parts.results,
        second: nesting.other,
    }
}

/// Whether the pass went on.
fn went(fine: bool) -> Step
    ensures { result ≡ step_of fine }
{
    if fine { Step::Went } else { Step::Untyped }
}

/// Where the pass stands.
#[derive(Drop)]
struct Pass<'a> {
    operands: OperandList<'a>,
    opens: Opens,
    /// The greatest number of operands so far.
    highest: usize,
}

impl<'a> Pass<'a> {
    /// Takes the test of an `if`.
    fn take_test(&mut self, other: Option<BlockId>) -> bool
        ensures own { Becomes (tested other self.old.operands.own) result self.new.operands.own }
        ensures under { self.new.operands.under ≡ self.old.operands.under }
        ensures opens { self.new.opens ≡ self.old.opens }
        ensures highest { self.new.highest ≡ self.old.highest }
    {
        match other {
            Some(_) => self.operands.pop_type(ValType::I32),
            None => true,
        }
    }

    /// Begins the block that the next instruction holds.
    fn open_block(&mut self, module: &'a Module, nesting: Nesting) -> Result<bool, AllocError>
        requires place { IsPlace (place_of self.old.operands self.old.opens) }
        requires at { NestsAt «module».now self.old.opens.top nesting }
        requires fits { self.old.opens.top.at + 1 < 2 ^ 64 }
        requires counted { length self.old.operands.own.types + length self.old.operands.under ≤ self.old.highest }
        ensures goes { IfOk result (λ fine. (F : Frame) → Goes «module».now F (place_of self.old.operands self.old.opens) self.old.highest fine (place_of self.new.operands self.new.opens)) }
        ensures highest { self.new.highest ≡ self.old.highest }
    {
        let Some(parts) = block_parts(module, nesting.ty) else {
            return Ok(false);
        };
        if !self.take_test(nesting.other) {
            return Ok(false);
        }
        if !self.operands.pop_types(types_of(module, parts.params)) {
            return Ok(false);
        }
        if self.opens.outer.len() >= MOST_NESTED {
            return Ok(false);
        }
        let saved = self.operands.open(types_of(module, parts.params))?;
        let mut open = self.opens.top;
        open.at += 1;
        self.opens.outer.push(Outer { open, saved })?;
        self.opens.top = opened(nesting, parts);
        Ok(true)
    }

    /// Passes the next instruction, which holds no blocks.
    fn go_flat(
        &mut self,
        module: &'a Module,
        spaces: &Spaces,
        locals: &Locals,
        results: Types,
        instr: &Instr,
        sort: Sort,
    ) -> Result<bool, AllocError>
        requires spaces { IsSpaces «module».now spaces.now }
        requires place { IsPlace (place_of self.old.operands self.old.opens) }
        requires at { rest_of «module».now self.old.opens.top ≡ instr.now ∷ rest_of «module».now (next_open self.old.opens.top) }
        requires sort { sort ≡ sort_of instr.now }
        requires flat { nesting_in sort ≡ None }
        requires fits { self.old.opens.top.at + 1 < 2 ^ 64 }
        requires counted { length self.old.operands.own.types + length self.old.operands.under ≤ self.old.highest }
        ensures goes { IfOk result (λ fine. Goes «module».now (frame_at «module».now locals.now results) (place_of self.old.operands self.old.opens) self.old.highest fine (place_of self.new.operands self.new.opens)) }
        ensures highest { self.new.highest ≡ self.old.highest }
    {
        let fine = pass_flat(
            &mut self.operands,
            &self.opens,
            module,
            spaces,
            locals,
            results,
            instr,
            sort,
        )?;
        self.opens.top.at += 1;
        Ok(fine)
    }

    /// Begins the second block of an `if`, whose first one has ended.
    fn begin_second(&mut self, module: &'a Module, second: BlockId) -> Result<(), AllocError>
        ensures own { OnOk result (self.new.operands.own ≡ exactly (types_in «module».now self.old.opens.top.params)) }
        ensures under { self.new.operands.under ≡ self.old.operands.under }
        ensures top { OnOk result (self.new.opens.top ≡ record self.old.opens.top { block = second; at = 0; second = None }) }
        ensures outer { self.new.opens.outer ≡ self.old.opens.outer }
        ensures highest { self.new.highest ≡ self.old.highest }
    {
        let types = types_of(module, self.opens.top.params);
        self.operands.begin(types)?;
        self.opens.top.block = second;
        self.opens.top.at = 0;
        self.opens.top.second = None;
        Ok(())
    }

    /// Goes back to the block round the innermost one, which has ended with its results, or ends the body.
    fn close_block(&mut self, module: &'a Module) -> Result<Step, AllocError>
        requires place { IsPlace (place_of self.old.operands self.old.opens) }
        requires spent { self.old.operands.own.types ≡ [] }
        ensures closed { IfOk result (λ step. Closes «module».now (place_of self.old.operands self.old.opens) self.old.highest step (place_of self.new.operands self.new.opens) self.new.highest) }
    {
        let results = types_of(module, self.opens.top.results);
        match self.opens.outer.pop() {
            Some(outer) => {
                self.operands.close(outer.saved);
                self.operands.push_types(results)?;
                self.opens.top = outer.open;
                Ok(Step::Went)
            }
            None => {
                self.highest = self.highest.max(results.len());
                Ok(Step::Ended)
            }
        }
    }

    /// Ends the innermost block.
    fn end_block(&mut self, module: &'a Module) -> Result<Step, AllocError>
        requires place { IsPlace (place_of self.old.operands self.old.opens) }
        requires at { rest_of «module».now self.old.opens.top ≡ [] }
        requires counted { length self.old.operands.own.types + length self.old.operands.under ≤ self.old.highest }
        ensures moves { IfOk result (λ step. (F : Frame) → Moves «module».now F (place_of self.old.operands self.old.opens) self.old.highest step (place_of self.new.operands self.new.opens) self.new.highest) }
    {
        let results = types_of(module, self.opens.top.results);
        if !self.operands.pop_types(results) {
            return Ok(Step::Untyped);
        }
        if !self.operands.is_spent() {
            return Ok(Step::Untyped);
        }
        match self.opens.top.second {
            Some(second) => {
                self.begin_second(module, second)?;
                Ok(Step::Went)
            }
            None => {
                let step = self.close_block(module)?;
                Ok(step)
            }
        }
    }

    /// Counts the operands of this place.
    fn note(&mut self)
        ensures operands { self.new.operands ≡ self.old.operands }
        ensures opens { self.new.opens ≡ self.old.opens }
        ensures highest { self.new.highest ≡ max self.old.highest (length self.old.operands.own.types + length self.old.operands.under) }
    {
        self.highest = self.highest.max(self.operands.len());
    }

    /// Passes the next instruction, or ends the innermost block.
    fn step(
        &mut self,
        module: &'a Module,
        spaces: &Spaces,
        locals: &Locals,
        results: Types,
    ) -> Result<Step, AllocError>
        requires spaces { IsSpaces «module».now spaces.now }
        requires place { IsPlace (place_of self.old.operands self.old.opens) }
        ensures moves { IfOk result (λ did. Moves «module».now (frame_at «module».now locals.now results) (place_of self.old.operands self.old.opens) self.old.highest did (place_of self.new.operands self.new.opens) self.new.highest) }
    {
        self.note();
        let code = module.code(self.opens.top.block);
        let at = self.opens.top.at;
        if at >= code.len() {
            let step = self.end_block(module)?;
            return Ok(step);
        }
        let instr = &code[at];
        match instr.sort() {
            Sort::Nested(nesting) => {
                let fine = self.open_block(module, nesting)?;
                Ok(went(fine))
            }
            sort => {
                let fine = self.go_flat(module, spaces, locals, results, instr, sort)?;
                Ok(went(fine))
            }
        }
    }
}

/// The height of a function's body, or none where it isn't typed. `ty` is the index of the function's type.
pub fn body_of(
    alloc: Global,
    module: &Module,
    spaces: &Spaces,
    locals: &Locals,
    ty: u32,
    body: BlockId,
) -> Result<Option<usize>, AllocError>
    requires { IsSpaces «module».now spaces.now }
    ensures { IfOk result (λ height. BodyIs (body_typed «module».now locals.now ty body) (body_tall «module».now locals.now ty body) height) }
{
    let results = Types::Results(ty);
    let mut pass = Pass {
        operands: OperandList::new(alloc),
        opens: Opens {
            top: Open {
                block: body,
                at: 0,
                label: results,
                params: Types::Empty,
                results,
                second: None,
            },
            outer: Vec::new(alloc),
        },
        highest: 0,
    };
    loop {
        match pass.step(module, spaces, locals, results)? {
            Step::Went => {}
            Step::Untyped => return Ok(None),
            Step::Ended => return Ok(Some(pass.highest)),
        }
    }
}
