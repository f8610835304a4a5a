//! A script's tree.

ghost use Rattle.std.specs.Prelude.{◌≡◌};
ghost use Rattle.host_parser.specs.Trees.{IsTree};
ghost use Rattle.host_parser.specs.Parsing.{built_tree};
ghost use Rattle.host_parser.specs.Laws.{BindingsAreThere, NodesAreThere, NumbersFit};

use crate::binding::Binding;
use embed_base::PlainList;
use host_nodes::{Built, Function, Node, NodeId};
use std::marker::Model;

/// A script's tree, as a table of nodes in which each stands after its parts. `parse` alone makes one.
#[derive(Debug, Drop)]
pub struct Script {
    functions: PlainList<Function>,
    top: PlainList<NodeId>,
    nodes: PlainList<Node>,
    bindings: PlainList<Binding>,
    globals: u64,
    len: u32,
}

impl Model for Script {
    ghost use Rattle.host_parser.specs.Trees.{Tree, IsTree};

    ghost Value = { Tree };

    ghost view = { λ s. record { functions = s.functions; top = s.top; nodes = s.nodes; bindings = s.bindings; globals = s.globals; len = s.len } };

    ghost invariant = { λ s. IsTree (record { functions = s.functions; top = s.top; nodes = s.nodes; bindings = s.bindings; globals = s.globals; len = s.len }) };
}

impl Script {
    /// The tree of what is built of a script.
    pub(crate) fn of_built(built: Built, bindings: PlainList<Binding>, len: u32) -> Script
        requires { IsTree (built_tree built bindings len) }
        ensures { result ≡ built_tree built bindings len }
    {
        Script {
            globals: built.declared.len() as u64,
            functions: built.functions,
            top: built.top,
            nodes: built.nodes,
            bindings,
            len,
        }
    }

    /// The functions, in the order of the text.
    pub fn functions(&self) -> &[Function]
        ensures { result.now ≡ self.now.functions }
    {
        self.functions.as_slice()
    }

    /// The other items, in the order of the text.
    pub fn top(&self) -> &[NodeId]
        ensures { result.now ≡ self.now.top }
    {
        self.top.as_slice()
    }

    /// All nodes, by their numbers.
    pub fn nodes(&self) -> &[Node]
        ensures { result.now ≡ self.now.nodes }
    {
        self.nodes.as_slice()
    }

    /// What each reference is bound to, by its number.
    pub fn bindings(&self) -> &[Binding]
        ensures { result.now ≡ self.now.bindings }
    {
        self.bindings.as_slice()
    }

    /// How many global bindings there are: those of the functions, and then those of the script's other declarations.
    pub fn globals(&self) -> u64
        ensures { result ≡ self.now.globals }
    {
        self.globals
    }

    /// The length of the text in bytes.
    pub fn len(&self) -> u32
        ensures { result ≡ self.now.len }
    {
        self.len
    }

    /// Each node that the tree names is there and stands after its parts, each name has its binding, and each number is one of the profile.
    /// A law for callers: it does nothing.
    pub fn nodes_are_there(&self)
        ensures nodes { NodesAreThere self.now }
        ensures bindings { BindingsAreThere self.now }
        ensures numbers { NumbersFit self.now }
    {
        let _ = &self.nodes;
    }
}
