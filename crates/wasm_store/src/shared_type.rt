ghost use Rattle.std.specs.Prelude.{◌≡◌, IfOk};

use std::alloc::{AllocError, Global};
use std::marker::Model;
use std::rc::Rc;
use wasm_syntax::FuncType;

/// The type of a function, which its clones share, and that contracts see as the type itself.
#[derive(Debug, Drop)]
pub struct SharedType {
    ty: Rc<FuncType>,
}

impl Model for SharedType {
    ghost use Rattle.wasm_syntax.specs.declared.types.FuncType.{FuncType};

    ghost Value = { FuncType };

    ghost view = { λ s. s.ty.value };
}

impl SharedType {
    /// The type itself, which isn't copied.
    pub fn new(alloc: Global, ty: FuncType) -> Result<SharedType, AllocError>
        ensures { IfOk result (λ s. s ≡ ty) }
    {
        let ty = Rc::new(alloc, ty)?;
        Ok(SharedType { ty })
    }

    /// The type, lent.
    pub fn get(&self) -> &FuncType
        ensures { result.now ≡ self.now }
    {
        &self.ty
    }
}

impl Clone for SharedType {
    ghost is_clone = { λ ty copy. copy ≡ ty };

    fn clone(&self) -> Result<SharedType, AllocError> {
        let ty = self.ty.clone()?;
        Ok(SharedType { ty })
    }
}
