//! The table of nodes so far.

ghost use Rattle.std.specs.Prelude.{◌≡◌, IfOk, reverse};
ghost use Rattle.host_nodes.specs.Tables as spec;

use crate::form::{Declared, Form, Mention, Node, NodeId, ReferenceId};
use embed_base::{PlainList, SharedString};
use std::alloc::{AllocError, Global};
use std::marker::Model;

/// The nodes of a script so far, and the names that it mentions.
#[derive(Drop)]
pub struct Table {
    nodes: Vec<Node>,
    mentions: Vec<Mention>,
    references: u64,
}

impl Model for Table {
    ghost use Rattle.std.specs.Prelude.{◌≤◌, reverse, length};
    ghost use Rattle.host_nodes.specs.Tables as spec;

    ghost Value = { spec.Table };

    ghost view = { λ t. record { nodes = reverse t.nodes.items; mentions = reverse t.mentions.items; references = t.references } };

    ghost invariant = { λ t. t.references ≤ length t.nodes.items };
}

impl Table {
    /// The empty table. It takes no memory.
    pub fn new(alloc: Global) -> Table
        ensures { result ≡ spec.no_table }
    {
        Table {
            nodes: Vec::new(alloc),
            mentions: Vec::new(alloc),
            references: 0,
        }
    }

    /// What gives the table its memory.
    pub fn alloc(&self) -> Global {
        *self.nodes.allocator()
    }

    /// The node that was added last.
    pub fn last(&self) -> NodeId
        ensures { result ≡ spec.last self.now }
    {
        NodeId(self.nodes.len().saturating_sub(1) as u64)
    }

    /// Adds a node.
    pub fn add(&mut self, form: Form, place: u32) -> Result<(), AllocError>
        ensures { IfOk result (λ _. self.new ≡ spec.add form place self.old) }
    {
        self.nodes.push(Node { form, place })?;
        Ok(())
    }

    /// Adds the node of a name that is referred to.
    pub fn add_name(&mut self, text: SharedString, place: u32) -> Result<(), AllocError>
        ensures { IfOk result (λ _. self.new ≡ spec.add_name text place self.old) }
    {
        let mentioned = text.clone()?;
        let form = Form::Name {
            text,
            reference: ReferenceId(self.references),
        };
        self.nodes.push(Node { form, place })?;
        self.references += 1;
        self.mentions.push(Mention::Name(mentioned))?;
        Ok(())
    }

    /// A scope begins.
    pub fn begins(&mut self) -> Result<(), AllocError>
        ensures { IfOk result (λ _. self.new ≡ spec.begins self.old) }
    {
        self.mentions.push(Mention::Begins)?;
        Ok(())
    }

    /// A scope ends, which declares these names.
    pub fn ends(&mut self, declared: PlainList<Declared>) -> Result<(), AllocError>
        ensures { IfOk result (λ _. self.new ≡ spec.ends declared self.old) }
    {
        self.mentions.push(Mention::Ends(declared))?;
        Ok(())
    }

    /// The nodes in the order of their numbers, and the mentions in the order of the text.
    pub fn into_lists(self) -> (PlainList<Node>, PlainList<Mention>)
        ensures nodes { result.0 ≡ reverse self.nodes }
        ensures mentions { result.1 ≡ reverse self.mentions }
    {
        let Table {
            nodes,
            mentions,
            references: _,
        } = self;
        (PlainList::from_vec(nodes), PlainList::from_vec(mentions))
    }
}
