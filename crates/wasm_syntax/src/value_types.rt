//! Tests of value types, and the types of blocks.

ghost use Rattle.std.specs.Prelude.{◌≡◌, ◌∷◌, [], Some, None, MatchOption};
ghost use Rattle.wasm_syntax.specs.ValueTypes.{same_type, is_reference, is_element, block_type};
ghost use Rattle.wasm_syntax.specs.NumberTypes.{value_type};

use crate::instructions::BlockType;
use crate::module::Module;
use crate::numbers::NumType;
use crate::types::ValType;

impl ValType {
    /// Whether two types are the same.
    pub fn is_same(self, other: ValType) -> bool
        ensures { result ≡ same_type self other }
    {
        matches!(
            (self, other),
            (ValType::I32, ValType::I32)
                | (ValType::I64, ValType::I64)
                | (ValType::FuncRef, ValType::FuncRef)
                | (ValType::ExternRef, ValType::ExternRef)
        )
    }

    /// Whether `ref.null` gives a value of this type.
    pub fn is_reference(self) -> bool
        ensures { result ≡ is_reference self }
    {
        match self {
            ValType::I32 | ValType::I64 => false,
            ValType::FuncRef | ValType::ExternRef => true,
        }
    }

    /// Whether a table may hold values of this type.
    pub fn is_element(self) -> bool
        ensures { result ≡ is_element self }
    {
        match self {
            ValType::I32 | ValType::I64 => false,
            ValType::FuncRef | ValType::ExternRef => true,
        }
    }

    /// The type alone, as a list.
    pub fn as_slice(self) -> &'static [ValType]
        ensures { result.now ≡ self ∷ [] }
    {
        match self {
            ValType::I32 => &[ValType::I32],
            ValType::I64 => &[ValType::I64],
            ValType::FuncRef => &[ValType::FuncRef],
            ValType::ExternRef => &[ValType::ExternRef],
        }
    }
}

impl NumType {
    /// The number type as the type of a value.
    pub fn value_type(self) -> ValType
        ensures { result ≡ value_type self }
    {
        match self {
            NumType::I32 => ValType::I32,
            NumType::I64 => ValType::I64,
        }
    }
}

/// The types of the operands that a block takes, and of those that it gives, lent.
#[derive(Clone, Copy)]
pub struct BlockSignature<'a> {
    pub params: &'a [ValType],
    pub results: &'a [ValType],
}

impl Module {
    /// The type of a block, or none where its index has no type.
    pub fn block_type(&self, ty: BlockType) -> Option<BlockSignature<'_>>
        ensures { MatchOption result (block_type self.now ty ≡ None) (λ signature. block_type self.now ty ≡ Some (record { params = signature.params.now; results = signature.results.now })) }
    {
        match ty {
            BlockType::Empty => Some(BlockSignature {
                params: &[],
                results: &[],
            }),
            BlockType::One(ty) => Some(BlockSignature {
                params: &[],
                results: ty.as_slice(),
            }),
            BlockType::Index(index) => match self.types.get(index as usize) {
                Some(ty) => Some(BlockSignature {
                    params: ty.params.as_slice(),
                    results: ty.results.as_slice(),
                }),
                None => None,
            },
        }
    }
}
