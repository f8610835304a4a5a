//! The nodes of a script.
ghost use Rattle.std.specs.Prelude.{◌≡◌, ◌+◌, ◌<◌, ◌^◌, IfOk, IfSome, option_copied, slice_get};
ghost use Rattle.host_values.specs.KeyOrder.{key_of_text};
ghost use Rattle.host_machine.specs.Nodes as spec;

use crate::item::Sequence;
use embed_base::SharedString;
use host_nodes::{Declaration, Form, NodeId, Operand, Property};
use host_parser::{Binding, Script};
use host_values::Key;
use std::alloc::{AllocError, Global};

/// The form of a node.
#[inline]
pub(crate) fn form(script: &Script, node: NodeId) -> Option<&Form>
    ensures { option_copied result ≡ spec.form_at script.now node }
{
    match script.nodes().get(node.0 as usize) {
        Some(found) => Some(&found.form),
        None => None,
    }
}

/// The place of a node.
pub(crate) fn place(script: &Script, node: NodeId) -> u32
    ensures { result ≡ spec.place_at script.now node }
{
    match script.nodes().get(node.0 as usize) {
        Some(found) => found.place,
        None => 0,
    }
}

/// What a node that is a name is bound to.
pub(crate) fn binding(script: &Script, node: NodeId) -> Binding
    ensures { result ≡ spec.binding_at script.now node }
{
    match form(script, node) {
        Some(Form::Name { text: _, reference }) => {
            match script.bindings().get(reference.0 as usize) {
                Some(binding) => *binding,
                None => Binding::Unknown,
            }
        }
        _ => Binding::Unknown,
    }
}

/// The statements of a list.
pub(crate) fn statements(script: &Script, sequence: Sequence) -> &[NodeId]
    ensures { result.now ≡ spec.statements_of script.now sequence }
{
    match sequence {
        Sequence::Top => script.top(),
        Sequence::Block(node) => match form(script, node) {
            Some(Form::Block { names: _, items }) => items.as_slice(),
            _ => &[],
        },
    }
}

/// How many names a block declares.
pub(crate) fn names(script: &Script, node: NodeId) -> u64
    ensures { result ≡ spec.names_of (spec.form_at script.now node) }
{
    match form(script, node) {
        Some(Form::Block { names, items: _ }) => *names,
        _ => 0,
    }
}

/// The names of a `let` or `const`.
pub(crate) fn declarations(script: &Script, node: NodeId) -> &[Declaration]
    ensures { result.now ≡ spec.declarations_of (spec.form_at script.now node) }
{
    match form(script, node) {
        Some(Form::Let(declarations)) => declarations.as_slice(),
        Some(Form::Const(declarations)) => declarations.as_slice(),
        _ => &[],
    }
}

/// The elements of an array literal.
pub(crate) fn elements(script: &Script, node: NodeId) -> &[NodeId]
    ensures { result.now ≡ spec.elements_of (spec.form_at script.now node) }
{
    match form(script, node) {
        Some(Form::Array(elements)) => elements.as_slice(),
        _ => &[],
    }
}

// The properties of an object literal.
fn properties(script: &Script, node: NodeId) -> &[Property]
    ensures { result.now ≡ spec.properties_of (spec.form_at script.now node) }
{
    match form(script, node) {
        Some(Form::Object(properties)) => properties.as_slice(),
        _ => &[],
    }
}

/// A property of an object literal.
pub(crate) fn property(script: &Script, node: NodeId, index: u64) -> Option<&Property>
    ensures value { option_copied result ≡ slice_get (spec.properties_of (spec.form_at script.now node)) index }
    ensures within { IfSome result (λ _. index + 1 < 2 ^ 64) }
{
    properties(script, node).get(index as usize)
}

/// The arguments of a call or `new`.
pub(crate) fn arguments(script: &Script, node: NodeId) -> &[NodeId]
    ensures { result.now ≡ spec.arguments_of (spec.form_at script.now node) }
{
    match form(script, node) {
        Some(
            Form::Call {
                callee: _,
                arguments,
            },
        ) => arguments.as_slice(),
        Some(
            Form::New {
                class: _,
                arguments,
            },
        ) => arguments.as_slice(),
        _ => &[],
    }
}

/// The operands of a chain that an operator follows.
pub(crate) fn operands(script: &Script, node: NodeId) -> &[Operand]
    ensures { result.now ≡ spec.operands_of (spec.form_at script.now node) }
{
    match form(script, node) {
        Some(Form::Chain { operands, last: _ }) => operands.as_slice(),
        _ => &[],
    }
}

// The last operand of a chain.
fn last(script: &Script, node: NodeId) -> NodeId
    ensures { result ≡ spec.last_of (spec.form_at script.now node) }
{
    match form(script, node) {
        Some(Form::Chain { operands: _, last }) => *last,
        _ => NodeId(0),
    }
}

/// The operand of a chain behind so many operators.
pub(crate) fn operand(script: &Script, node: NodeId, behind: u64) -> NodeId
    ensures { result ≡ spec.operand_of (spec.form_at script.now node) behind }
{
    match operands(script, node).get(behind as usize) {
        Some(operand) => operand.node,
        None => last(script, node),
    }
}

/// The key of `OBJECT.KEY`.
pub(crate) fn member_key(alloc: Global, script: &Script, node: NodeId) -> Result<Key, AllocError>
    ensures { IfOk result (λ key. key ≡ key_of_text (spec.key_of_member (spec.form_at script.now node))) }
{
    match form(script, node) {
        Some(Form::Member { object: _, key }) => Ok(Key::of_text(key.clone()?)),
        _ => Ok(Key::of_text(SharedString::from_str(alloc, "")?)),
    }
}

/// The name that a key of an object literal spells.
pub(crate) fn spelled(key: &host_nodes::Key) -> &SharedString
    ensures { result.now ≡ spec.spelled key.now }
{
    match key {
        host_nodes::Key::Word(text) => text,
        host_nodes::Key::Text(text) => text,
        host_nodes::Key::Alone(text) => text,
    }
}
