//! The chains of operators that are open at an operand.
ghost use Rattle.std.specs.Prelude.{◌≡◌, [], ◌∷◌, ◌++◌, length, IfOk, OnOk};
ghost use Rattle.small_parser.specs.Grammar as grammar;
ghost use Rattle.small_parser.specs.Machine as machine;
ghost use Rattle.small_parser.specs.Shows.{FactorShows, ProductShows, SumShows};
ghost use Rattle.small_parser.specs.Chains.{Grows, BeforeSumShows, BeforeProductShows, LevelShows};

use crate::script::{Form, Node, NodeId, Operand};
use embed_base::PlainList;
use std::alloc::{AllocError, Global};

/// What stands before an operand: the operands that `+` or `-` follows, and after the last of these the ones that `*`
/// follows.
#[derive(Drop)]
pub struct Level {
    pub sum: PlainList<Operand>,
    pub product: PlainList<Operand>,
}

impl Level {
    /// Nothing.
    pub fn new(alloc: Global) -> Self
        ensures { LevelShows machine.fresh [] result }
    {
        Level {
            sum: PlainList::new(alloc),
            product: PlainList::new(alloc),
        }
    }
}

/// Adds a node.
pub fn add(nodes: &mut PlainList<Node>, form: Form, place: u32) -> Result<NodeId, AllocError>
    ensures id { IfOk result (λ id. id.0 ≡ length nodes.old) }
    ensures nodes { OnOk result (nodes.new ≡ nodes.old ++ record { form = form; place = place } ∷ []) }
{
    let id = NodeId(nodes.len());
    nodes.push(Node { form, place })?;
    Ok(id)
}

/// The product that an operand ends.
pub fn close_product(
    nodes: &mut PlainList<Node>,
    left: PlainList<Operand>,
    operand: NodeId,
) -> Result<NodeId, AllocError>
    ensures grown { OnOk result (Grows nodes.old nodes.new) }
    ensures shown { IfOk result (λ id. (m : machine.BeforeProduct) (f : grammar.Factor) → BeforeProductShows m nodes.old left → FactorShows f nodes.old operand.0 → ProductShows (machine.product_with m f) nodes.new id.0) }
{
    let Some(first) = left.as_slice().first() else {
        return Ok(operand);
    };
    let place = first.place;
    let id = add(nodes, Form::Chain(left, operand), place)?;
    Ok(id)
}

/// The sum that a product ends.
pub fn close_sum(
    nodes: &mut PlainList<Node>,
    left: PlainList<Operand>,
    operand: NodeId,
) -> Result<NodeId, AllocError>
    ensures grown { OnOk result (Grows nodes.old nodes.new) }
    ensures shown { IfOk result (λ id. (a : machine.BeforeSum) (m : grammar.Product) → BeforeSumShows a nodes.old left → ProductShows m nodes.old operand.0 → SumShows (machine.sum_with a m) nodes.new id.0) }
{
    let Some(first) = left.as_slice().first() else {
        return Ok(operand);
    };
    let place = first.place;
    let id = add(nodes, Form::Chain(left, operand), place)?;
    Ok(id)
}

/// The sum that an operand ends.
pub fn close_level(
    nodes: &mut PlainList<Node>,
    level: Level,
    operand: NodeId,
) -> Result<NodeId, AllocError>
    ensures grown { OnOk result (Grows nodes.old nodes.new) }
    ensures shown { IfOk result (λ id. (l : machine.Level) (f : grammar.Factor) → LevelShows l nodes.old level → FactorShows f nodes.old operand.0 → SumShows (machine.sum_of l f) nodes.new id.0) }
{
    let Level { sum, product } = level;
    let chain = close_product(nodes, product, operand)?;
    let id = close_sum(nodes, sum, chain)?;
    Ok(id)
}
