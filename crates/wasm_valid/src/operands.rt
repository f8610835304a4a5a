//! The types of the operands of all open blocks, in one list.

ghost use Rattle.std.specs.Prelude.{◌≡◌, ◌+◌, ◌≤◌, ◌-◌, ◌++◌, [], ◌∷◌, length, reverse, map, take, drop, Some, None, true, false, is_some, MatchOption, IfOk, OnOk, option_to_list};
ghost use Rattle.wasm_valid.specs.Operands.{take_any, take_one, take_all, put, exchange, leaves, anything, exactly, fits, is_empty};
ghost use Rattle.wasm_valid.specs.Piles.{Becomes, is_anything};
ghost use Rattle.wasm_valid.specs.Signatures.{takes_of};

use crate::runs::Runs;
use crate::signature::{Signature, Takes};
use std::alloc::{AllocError, Global};
use std::marker::Model;
use wasm_syntax::ValType;

/// The types of the operands of all open blocks. None is an operand that fits every type. Those from `base` on belong to the
/// innermost block, and `any` tells whether anything may stand below these.
#[derive(Drop)]
pub struct OperandList<'a> {
    list: Runs<'a>,
    base: usize,
    any: bool,
}

/// Where the operands of a block begin that isn't the innermost one, and its mark.
#[derive(Clone, Copy)]
pub struct Saved {
    pub base: usize,
    pub any: bool,
}

impl<'a> Model for OperandList<'a> {
    ghost use Rattle.std.specs.Prelude.{◌≤◌, length};
    ghost use Rattle.wasm_valid.specs.Piles.{Pile, pile_of};

    ghost Value = { Pile };

    ghost view = { λ o. pile_of o.list o.base o.any };

    ghost invariant = { λ o. o.base ≤ length o.list };
}

/// Whether an operand may be used as one of this type.
pub fn type_fits(ty: ValType, operand: Option<ValType>) -> bool
    ensures { result ≡ fits ty operand }
{
    match operand {
        Some(found) => ty.is_same(found),
        None => true,
    }
}

impl<'a> OperandList<'a> {
    /// The operands at the start of a body: none.
    pub fn new(alloc: Global) -> OperandList<'a>
        ensures { result ≡ record { own = exactly []; under = [] } }
    {
        OperandList {
            list: Runs::new(alloc),
            base: 0,
            any: false,
        }
    }

    /// How many operands there are, those of all open blocks together.
    pub fn len(&self) -> usize
        ensures { result ≡ length self.now.own.types + length self.now.under }
    {
        self.list.len()
    }

    /// Puts an operand on top.
    pub fn push(&mut self, ty: Option<ValType>) -> Result<(), AllocError>
        ensures own { OnOk result (self.new.own ≡ put (ty ∷ []) self.old.own) }
        ensures under { self.new.under ≡ self.old.under }
    {
        self.list.push(ty)?;
        Ok(())
    }

    /// Takes the topmost operand of the innermost block.
    pub fn pop(&mut self) -> Option<Option<ValType>>
        ensures taken { MatchOption result (take_any self.old.own ≡ None) (λ ty. take_any self.old.own ≡ Some (record { type = ty; rest = self.new.own })) }
        ensures under { self.new.under ≡ self.old.under }
    {
        if self.list.len() > self.base {
            self.list.pop()
        } else if self.any {
            Some(None)
        } else {
            None
        }
    }

    /// Takes a topmost operand of this type, or tells that there is none.
    pub fn pop_type(&mut self, ty: ValType) -> bool
        ensures own { Becomes (take_one ty self.old.own) result self.new.own }
        ensures under { self.new.under ≡ self.old.under }
    {
        match self.pop() {
            Some(operand) => type_fits(ty, operand),
            None => false,
        }
    }

    /// Whether the place is one that is never reached and no operand stands there, so that operands of all types may be taken.
    fn takes_anything(&self) -> bool
        ensures { result ≡ is_anything self.now.own }
    {
        self.any && self.list.len() == self.base
    }

    /// Takes topmost operands of these types, which stand in their order. Where anything may be taken it is taken at once.
    pub fn pop_types(&mut self, types: &[ValType]) -> bool
        ensures own { Becomes (take_all (reverse types.now) self.old.own) result self.new.own }
        ensures under { self.new.under ≡ self.old.under }
    {
        let mut left = types.len();
        while left > 0 {
            if self.takes_anything() {
                return true;
            }
            left -= 1;
            if !self.pop_type(types[left]) {
                return false;
            }
        }
        true
    }

    /// Puts operands of these types on top, in their order.
    pub fn push_types(&mut self, types: &'a [ValType]) -> Result<(), AllocError>
        ensures own { OnOk result (self.new.own ≡ put (map Some (reverse types.now)) self.old.own) }
        ensures under { self.new.under ≡ self.old.under }
    {
        self.list.push_types(types)?;
        Ok(())
    }

    /// Whether the topmost operands have these types, which stand in their order.
    pub fn has_types(&self, types: &[ValType]) -> bool
        ensures { result ≡ is_some (take_all (reverse types.now) self.now.own) }
    {
        self.list.has_types(self.base, self.any, types)
    }

    /// Takes operands of these types and puts operands of those, each in their order.
    pub fn exchange_types(
        &mut self,
        takes: &[ValType],
        gives: &'a [ValType],
    ) -> Result<bool, AllocError>
        ensures own { IfOk result (λ fine. Becomes (exchange (reverse takes.now) (reverse gives.now) self.old.own) fine self.new.own) }
        ensures under { self.new.under ≡ self.old.under }
    {
        if !self.pop_types(takes) {
            return Ok(false);
        }
        self.push_types(gives)?;
        Ok(true)
    }

    /// Takes operands of these types, which stand in their order, and marks the place behind as one that is never reached.
    pub fn leave(&mut self, takes: &[ValType]) -> bool
        ensures own { Becomes (leaves (reverse takes.now) self.old.own) result self.new.own }
        ensures under { self.new.under ≡ self.old.under }
    {
        if !self.pop_types(takes) {
            return false;
        }
        self.abandon();
        true
    }

    /// Marks the place as one that is never reached.
    pub fn abandon(&mut self)
        ensures own { self.new.own ≡ anything }
        ensures under { self.new.under ≡ self.old.under }
    {
        self.list.truncate(self.base);
        self.any = true;
    }

    /// Opens a block that begins with operands of these types. The operands that are there stay below it.
    pub fn open(&mut self, types: &'a [ValType]) -> Result<Saved, AllocError>
        ensures own { OnOk result (self.new.own ≡ exactly types.now) }
        ensures under { OnOk result (self.new.under ≡ self.old.own.types ++ self.old.under) }
        ensures saved { IfOk result (λ saved. (saved.base ≡ length self.old.under) × (saved.any ≡ self.old.own.any)) }
    {
        let saved = Saved {
            base: self.base,
            any: self.any,
        };
        self.base = self.list.len();
        self.any = false;
        self.push_types(types)?;
        Ok(saved)
    }

    /// Begins the innermost block again, with operands of these types.
    pub fn begin(&mut self, types: &'a [ValType]) -> Result<(), AllocError>
        ensures own { OnOk result (self.new.own ≡ exactly types.now) }
        ensures under { self.new.under ≡ self.old.under }
    {
        self.list.truncate(self.base);
        self.any = false;
        self.push_types(types)
    }

    /// Ends the innermost block, which has no operands left.
    pub fn close(&mut self, saved: Saved)
        requires base { saved.base ≤ length self.old.under }
        requires spent { self.old.own.types ≡ [] }
        ensures types { self.new.own.types ≡ take (length self.old.under - saved.base) self.old.under }
        ensures any { self.new.own.any ≡ saved.any }
        ensures under { self.new.under ≡ drop (length self.old.under - saved.base) self.old.under }
    {
        self.base = saved.base;
        self.any = saved.any;
    }

    /// Whether the innermost block has no operands left.
    pub fn is_spent(&self) -> bool
        ensures { result ≡ is_empty self.now.own.types }
    {
        self.list.len() == self.base
    }

    /// Takes and gives what an instruction's type says.
    pub fn apply(&mut self, signature: Signature) -> Result<bool, AllocError>
        ensures own { IfOk result (λ fine. Becomes (exchange (takes_of signature.takes) (option_to_list signature.gives) self.old.own) fine self.new.own) }
        ensures under { self.new.under ≡ self.old.under }
    {
        if !self.pop_takes(signature.takes) {
            return Ok(false);
        }
        if let Some(ty) = signature.gives {
            self.push(Some(ty))?;
        }
        Ok(true)
    }

    fn pop_takes(&mut self, takes: Takes) -> bool
        ensures own { Becomes (take_all (takes_of takes) self.old.own) result self.new.own }
        ensures under { self.new.under ≡ self.old.under }
    {
        match takes {
            Takes::Nothing => true,
            Takes::One(first) => self.pop_type(first),
            Takes::Two(first, second) => self.pop_type(first) && self.pop_type(second),
            Takes::Three(first, second, third) => {
                self.pop_type(first) && self.pop_type(second) && self.pop_type(third)
            }
        }
    }
}
