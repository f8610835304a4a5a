//! Operators.
ghost use Rattle.std.specs.Prelude.{◌≡◌, IfOk, OnOk};
ghost use Rattle.host_machine.specs.Nodes.{form_at};
ghost use Rattle.host_machine.specs.Terms.{state_of};
ghost use Rattle.host_machine.specs.Moves.{Moved, set_to};
ghost use Rattle.host_machine.specs.Operators as spec;

use crate::effect::HostEffect;
use crate::focus::Focus;
use crate::frame::HostFrame;
use crate::item::Item;
use crate::nodes;
use embed_base::SharedString;
use host_convert::{Arith, Conv, Rel};
use host_nodes::{BinaryOperator, NodeId, PrefixOperator};
use host_parser::Script;
use host_values::{Heap, HostValue};
use std::alloc::{AllocError, Global};

/// A truth value as a value.
fn truth(conv: Conv<bool>) -> Conv<HostValue>
    ensures { result ≡ spec.truth conv }
{
    match conv {
        Conv::Value(truth) => Conv::Value(HostValue::Bool(truth)),
        Conv::Throw(class) => Conv::Throw(class),
        Conv::Outside(kind) => Conv::Outside(kind),
    }
}

/// An operator between two values.
fn applied(
    alloc: Global,
    operator: BinaryOperator,
    a: &HostValue,
    b: &HostValue,
) -> Result<Conv<HostValue>, AllocError>
    ensures { IfOk result (λ c. c ≡ spec.applied operator a.now b.now) }
{
    match operator {
        BinaryOperator::Times => Ok(host_convert::arith(Arith::Mul, a, b)),
        BinaryOperator::Divided => Ok(host_convert::arith(Arith::Div, a, b)),
        BinaryOperator::Remainder => Ok(host_convert::arith(Arith::Rem, a, b)),
        BinaryOperator::Plus => host_convert::add(alloc, a, b),
        BinaryOperator::Minus => Ok(host_convert::arith(Arith::Sub, a, b)),
        BinaryOperator::Less => Ok(truth(host_convert::compare(Rel::Lt, a, b))),
        BinaryOperator::Greater => Ok(truth(host_convert::compare(Rel::Gt, a, b))),
        BinaryOperator::LessEquals => Ok(truth(host_convert::compare(Rel::Le, a, b))),
        BinaryOperator::GreaterEquals => Ok(truth(host_convert::compare(Rel::Ge, a, b))),
        BinaryOperator::StrictEquals => {
            Ok(Conv::Value(HostValue::Bool(host_convert::strict_equal(a, b))))
        }
        BinaryOperator::StrictNotEquals => {
            Ok(Conv::Value(HostValue::Bool(!host_convert::strict_equal(a, b))))
        }
        BinaryOperator::And => Ok(Conv::Value(b.clone()?)),
        BinaryOperator::Or => Ok(Conv::Value(b.clone()?)),
    }
}

/// Whether a left operand is the result, without the right one.
fn decides(operator: BinaryOperator, left: &HostValue) -> bool
    ensures { result ≡ spec.decides operator left.now }
{
    match operator {
        BinaryOperator::And => !host_convert::to_boolean(left),
        BinaryOperator::Or => host_convert::to_boolean(left),
        _ => false,
    }
}

/// The type of a value, as `typeof` tells it.
fn type_name(heap: &Heap, value: &HostValue) -> &'static str
    ensures { result.now ≡ spec.type_name heap.now value.now }
{
    match value {
        HostValue::Undefined => "undefined",
        HostValue::Null => "object",
        HostValue::Bool(_) => "boolean",
        HostValue::Number(_) => "number",
        HostValue::BigInt(_) => "bigint",
        HostValue::Text(_) => "string",
        HostValue::Object(_) => {
            if heap.is_callable(value) {
                "function"
            } else {
                "object"
            }
        }
    }
}

/// An operator before a value.
pub(crate) fn prefixed(
    alloc: Global,
    heap: &Heap,
    operator: PrefixOperator,
    value: &HostValue,
) -> Result<Conv<HostValue>, AllocError>
    ensures { IfOk result (λ c. c ≡ spec.prefixed heap.now operator value.now) }
{
    match operator {
        PrefixOperator::Negative => Ok(host_convert::negate(value)),
        PrefixOperator::Not => Ok(Conv::Value(HostValue::Bool(!host_convert::to_boolean(value)))),
        PrefixOperator::TypeOf => {
            let name = SharedString::from_str(alloc, type_name(heap, value))?;
            Ok(Conv::Value(HostValue::Text(name)))
        }
    }
}

impl HostFrame {
    /// A chain whose value so far is this goes on before an operator, if there is one.
    pub(crate) fn chain(
        &mut self,
        script: &Script,
        node: NodeId,
        index: u64,
        value: HostValue,
    ) -> Result<(), AllocError>
        ensures { OnOk result (self.new ≡ set_to (spec.chained (form_at script.now node) node index value) self.old) }
    {
        match nodes::operands(script, node).get(index as usize) {
            Some(operand) => {
                if decides(operand.operator, &value) {
                    self.set(Focus::Value(value));
                    return Ok(());
                }
                let right = nodes::operand(script, node, index + 1);
                self.wait(
                    Item::Right {
                        node,
                        index,
                        left: value,
                    },
                    right,
                )
            }
            None => {
                self.set(Focus::Value(value));
                Ok(())
            }
        }
    }

    // What an operator gave, for its chain, before the operator with this number.
    fn chain_goes(
        &mut self,
        alloc: Global,
        heap: &mut Heap,
        script: &Script,
        node: NodeId,
        next: u64,
        place: u32,
        given: Conv<HostValue>,
    ) -> Result<HostEffect, AllocError>
        ensures { IfOk result (λ e. Moved (spec.chain_goes (state_of heap.old self.old) (form_at script.now node) node next place given) self.old e heap.new self.new) }
    {
        match given {
            Conv::Value(value) => {
                self.chain(script, node, next, value)?;
                Ok(HostEffect::Went)
            }
            Conv::Throw(class) => self.throw_error(alloc, heap, class),
            Conv::Outside(kind) => Ok(self.refuse(kind, place)),
        }
    }

    /// The operator of a chain with this number, between two values.
    pub(crate) fn operate(
        &mut self,
        alloc: Global,
        heap: &mut Heap,
        script: &Script,
        node: NodeId,
        index: u64,
        left: HostValue,
        right: HostValue,
    ) -> Result<HostEffect, AllocError>
        ensures { IfOk result (λ e. Moved (spec.operated (state_of heap.old self.old) (form_at script.now node) node index left right) self.old e heap.new self.new) }
    {
        match nodes::operands(script, node).get(index as usize) {
            Some(operand) => {
                let given = applied(alloc, operand.operator, &left, &right)?;
                self.chain_goes(alloc, heap, script, node, index + 1, operand.place, given)
            }
            None => Ok(self.give(right)),
        }
    }

    /// What a conversion or an operator gave.
    pub(crate) fn convert(
        &mut self,
        alloc: Global,
        heap: &mut Heap,
        place: u32,
        given: Conv<HostValue>,
    ) -> Result<HostEffect, AllocError>
        ensures { IfOk result (λ e. Moved (spec.converted (state_of heap.old self.old) place given) self.old e heap.new self.new) }
    {
        match given {
            Conv::Value(value) => Ok(self.give(value)),
            Conv::Throw(class) => self.throw_error(alloc, heap, class),
            Conv::Outside(kind) => Ok(self.refuse(kind, place)),
        }
    }
}
