//! Validation of a module (WebAssembly Core 2.0, section 3.4).

ghost use Rattle.std.specs.Prelude.{◌≡◌, ◌<◌, ◌^◌, length, slice_get, option_map, [], Some, true, IfOk, OnOk, IfErr};
ghost use Rattle.wasm_valid.specs.Typing.{is_typed_body, body_height};
ghost use Rattle.wasm_valid.specs.ModuleRules.{is_framed, is_typed_module, first_untyped};
ghost use Rattle.wasm_valid.specs.Places.{BodyIs};
ghost use Rattle.wasm_valid.specs.Valid.{Refuses, BodiesAre};
ghost use Rattle.wasm_valid.specs.Views.{IsSpaces};

use crate::locals::Locals;
use crate::numbering::has_numbering;
use crate::pass::body_of;
use crate::rules::keeps_rules;
use crate::spaces::{Spaces, index_spaces};
use std::alloc::{AllocError, Global};
use std::marker::Model;
use wasm_syntax::{Func, Module};

/// Why a module isn't valid.
#[derive(Clone, Copy, PartialEq, Eq, Debug)]
pub enum Invalid {
    /// It isn't typed. `function` is the first of the module's own functions whose body isn't typed, counted without the imported
    /// ones; it is none where the blocks aren't numbered in order or a rule that stands outside the bodies fails.
    Invalid { function: Option<u32> },
    /// There was no memory to find out.
    NoMemory,
}

impl From<AllocError> for Invalid {
    ghost use Rattle.wasm_valid.specs.declared.valid.Invalid.TheVariants.{NoMemory};
    ghost use Rattle.std.specs.Prelude.{◌≡◌};

    ghost from_gives = { λ _ e. e ≡ NoMemory };

    fn from(_: AllocError) -> Self {
        Invalid::NoMemory
    }
}

/// A module that is typed, with the heights of its functions' bodies. `validate` alone makes one.
#[derive(Debug, Drop)]
pub struct ValidModule {
    module: Module,
    heights: Vec<u64>,
}

impl Model for ValidModule {
    ghost use Rattle.wasm_syntax.specs.declared.module.Module.{Module};
    ghost use Rattle.wasm_valid.specs.Valid.{IsValid};

    ghost Value = { Module };

    ghost view = { λ valid. valid.module };

    ghost invariant = { λ valid. IsValid valid.module valid.heights.items };
}

impl ValidModule {
    /// The module.
    pub fn module(&self) -> &Module
        ensures value { result.now ≡ self.now }
        ensures typed { is_typed_module self.now ≡ true }
    {
        &self.module
    }

    /// The height of the body of one of the module's own functions, counted without the imported ones: the greatest number of
    /// operands at any of its places. That body is typed.
    pub fn height(&self, function: u32) -> u64
        requires { function < length self.now.funcs }
        ensures height { option_map (body_height self.now) (slice_get self.now.funcs function) ≡ Some result }
        ensures typed_body { option_map (is_typed_body self.now) (slice_get self.now.funcs function) ≡ Some true }
    {
        self.heights[function as usize]
    }
}

/// The height of a function's body, or none where the body isn't typed.
fn check_body(
    alloc: Global,
    module: &Module,
    spaces: &Spaces,
    func: &Func,
) -> Result<Option<usize>, AllocError>
    requires { IsSpaces «module».now spaces.now }
    ensures { IfOk result (BodyIs (is_typed_body «module».now func.now) (body_height «module».now func.now)) }
{
    let Some(ty) = module.types.get(func.ty as usize) else {
        return Ok(None);
    };
    let Some(locals) = Locals::new(alloc, ty.params.as_slice(), func.locals.as_slice())? else {
        return Ok(None);
    };
    let height = body_of(alloc, module, spaces, &locals, func.ty, func.body)?;
    Ok(height)
}

/// The first function whose body isn't typed. The heights are those of the functions before it.
fn check_bodies(
    alloc: Global,
    module: &Module,
    spaces: &Spaces,
    heights: &mut Vec<u64>,
) -> Result<Option<u32>, AllocError>
    requires spaces { IsSpaces «module».now spaces.now }
    requires few { length «module».now.funcs < 2 ^ 32 }
    requires empty { heights.old.items ≡ [] }
    ensures { IfOk result (BodiesAre «module».now heights.new.items) }
{
    let funcs = module.funcs.as_slice();
    for (index, func) in funcs.iter().enumerate() {
        match check_body(alloc, module, spaces, func)? {
            Some(height) => heights.push(height as u64)?,
            None => return Ok(Some(index as u32)),
        }
    }
    Ok(None)
}

/// Validates a module, which is kept where it is typed and dropped where it isn't.
pub fn validate(alloc: Global, module: Module) -> Result<ValidModule, Invalid>
    ensures kept { IfOk result (λ valid. valid ≡ «module») }
    ensures typed { OnOk result (is_typed_module «module» ≡ true) }
    ensures refused { IfErr result (Refuses «module») }
{
    let spaces = index_spaces(alloc, &module)?;
    if !has_numbering(alloc, &module)? {
        return Err(Invalid::Invalid { function: None });
    }
    if !keeps_rules(alloc, &module, &spaces)? {
        return Err(Invalid::Invalid { function: None });
    }
    let mut heights = Vec::new(alloc);
    match check_bodies(alloc, &module, &spaces, &mut heights)? {
        Some(index) => Err(Invalid::Invalid {
            function: Some(index),
        }),
        None => Ok(ValidModule { module, heights }),
    }
}
