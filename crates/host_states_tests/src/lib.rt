//! Tests of where scripts are refused: places that were worked out by hand from the grammar.
#![tactic(auto)]

#[cfg(test)]
mod depths;
#[cfg(test)]
mod refusals;
