//! Tests of scripts' trees: nodes, bindings and later declarations that were worked out by hand from the grammar.
#![tactic(auto)]

#[cfg(test)]
mod bindings;
#[cfg(test)]
mod nodes;
