//! What stands before an operand: chains that go on, and prefix operators.

ghost use Rattle.std.specs.Prelude.{◌≡◌, [], ◌∷◌, ◌++◌, IfOk};
ghost use Rattle.host_nodes.specs.Building as spec;
ghost use Rattle.host_nodes.specs.Tables as tables;

use crate::form::{BinaryOperator, Form, Operand, PrefixOperator};
use crate::stack::Stack;
use crate::state::{Group, Level, Prefixed, Ranked};
use crate::table::Table;
use embed_base::PlainList;
use host_lexer::Mark;
use std::alloc::{AllocError, Global};

fn or_here(first: Option<u32>, place: u32) -> Option<u32>
    ensures { result ≡ spec.or_here first place }
{
    match first {
        None => Some(place),
        Some(before) => Some(before),
    }
}

/// A place that is known once an operand was read.
pub fn place_or_none(first: Option<u32>) -> u32
    ensures { result ≡ spec.place_or_none first }
{
    match first {
        None => 0,
        Some(place) => place,
    }
}

impl Level {
    /// A level with nothing before its operand. It takes no memory.
    pub fn fresh(alloc: Global) -> Level
        ensures { result ≡ spec.fresh }
    {
        Level {
            groups: Stack::new(alloc),
            prefixes: Stack::new(alloc),
            first: None,
        }
    }

    /// A token that stands here is the first one, unless one was before.
    pub fn begin(&mut self, place: u32)
        ensures { self.new ≡ spec.begun self.old place }
    {
        self.first = or_here(self.first, place);
    }

    /// A prefix operator.
    pub fn add_prefix(&mut self, operator: PrefixOperator, place: u32) -> Result<(), AllocError>
        ensures { IfOk result (λ _. self.new ≡ spec.prefixed operator place self.old) }
    {
        self.prefixes.push(Prefixed { operator, place })?;
        self.begin(place);
        Ok(())
    }
}

fn operator_place(operands: &[Operand]) -> u32
    ensures { result ≡ tables.operator_place operands.now }
{
    match operands {
        [] => 0,
        [first, ..] => first.place,
    }
}

/// The operators before the last node, the innermost first.
pub fn close_prefixes(table: &mut Table, prefixes: Stack<Prefixed>) -> Result<(), AllocError>
    ensures { IfOk result (λ _. table.new ≡ spec.close_prefixes prefixes table.old) }
{
    let mut prefixes = prefixes;
    while let Some(Prefixed { operator, place }) = prefixes.pop() {
        let operand = table.last();
        table.add(Form::Prefix { operator, operand }, place)?;
    }
    Ok(())
}

// A chain whose last operand is the last node.
fn close_group(table: &mut Table, group: Group) -> Result<(), AllocError>
    ensures { IfOk result (λ _. table.new ≡ spec.close_group group table.old) }
{
    let place = operator_place(group.operands.as_slice());
    let last = table.last();
    table.add(
        Form::Chain {
            operands: group.operands,
            last,
        },
        place,
    )
}

fn close_groups(table: &mut Table, groups: Stack<Group>) -> Result<(), AllocError>
    ensures { IfOk result (λ _. table.new ≡ spec.close_groups groups table.old) }
{
    let mut groups = groups;
    while let Some(group) = groups.pop() {
        close_group(table, group)?;
    }
    Ok(())
}

/// An expression ends, whose last operand is the last node.
pub fn close_level(table: &mut Table, level: Level) -> Result<(), AllocError>
    ensures { IfOk result (λ _. table.new ≡ spec.closed_table level table.old) }
{
    close_prefixes(table, level.prefixes)?;
    close_groups(table, level.groups)
}

/// The chains that bind tighter than an operator of this rank end; the others are given back.
pub fn tighten(
    table: &mut Table,
    rank: u8,
    groups: Stack<Group>,
) -> Result<Stack<Group>, AllocError>
    ensures { IfOk result (λ gs. spec.tightened rank groups table.old ≡ spec.tightened_at gs table.new) }
{
    let mut groups = groups;
    while let Some(group) = groups.pop() {
        if group.rank >= rank {
            groups.push(group)?;
            return Ok(groups);
        }
        close_group(table, group)?;
    }
    Ok(groups)
}

fn begin_group(
    alloc: Global,
    rank: u8,
    operand: Operand,
    groups: &mut Stack<Group>,
) -> Result<(), AllocError>
    ensures { IfOk result (λ _. groups.new ≡ spec.group_begun rank operand groups.old) }
{
    let mut operands = PlainList::new(alloc);
    operands.push(operand)?;
    groups.push(Group { rank, operands })
}

fn join_group(
    group: Group,
    rank: u8,
    operand: Operand,
    groups: &mut Stack<Group>,
) -> Result<(), AllocError>
    ensures { IfOk result (λ _. groups.new ≡ spec.group_of rank (group.operands ++ operand ∷ []) ∷ groups.old) }
{
    let Group {
        rank: _,
        mut operands,
    } = group;
    operands.push(operand)?;
    groups.push(Group { rank, operands })
}

/// An operand with the operator that follows it, in the chain of the operator's rank.
pub fn join(
    alloc: Global,
    rank: u8,
    operand: Operand,
    groups: &mut Stack<Group>,
) -> Result<(), AllocError>
    ensures { IfOk result (λ _. groups.new ≡ spec.joined rank operand groups.old) }
{
    let Some(group) = groups.pop() else {
        return begin_group(alloc, rank, operand, groups);
    };
    if group.rank == rank {
        return join_group(group, rank, operand, groups);
    }
    groups.push(group)?;
    begin_group(alloc, rank, operand, groups)
}

fn ranked(rank: u8, operator: BinaryOperator) -> Option<Ranked>
    ensures { result ≡ spec.ranked rank operator }
{
    Some(Ranked { rank, operator })
}

/// The operator of a mark, with its rank.
pub fn ranked_of(mark: Mark) -> Option<Ranked>
    ensures { result ≡ spec.ranked_of mark }
{
    match mark {
        Mark::Star => ranked(0, BinaryOperator::Times),
        Mark::Slash => ranked(0, BinaryOperator::Divided),
        Mark::Percent => ranked(0, BinaryOperator::Remainder),
        Mark::Plus => ranked(1, BinaryOperator::Plus),
        Mark::Minus => ranked(1, BinaryOperator::Minus),
        Mark::Less => ranked(2, BinaryOperator::Less),
        Mark::Greater => ranked(2, BinaryOperator::Greater),
        Mark::LessEquals => ranked(2, BinaryOperator::LessEquals),
        Mark::GreaterEquals => ranked(2, BinaryOperator::GreaterEquals),
        Mark::StrictEquals => ranked(3, BinaryOperator::StrictEquals),
        Mark::StrictNotEquals => ranked(3, BinaryOperator::StrictNotEquals),
        Mark::And => ranked(4, BinaryOperator::And),
        Mark::Or => ranked(5, BinaryOperator::Or),
        _ => None,
    }
}
