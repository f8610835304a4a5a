//! Tests of stacks, over public calls alone.
#![tactic(auto)]

#[cfg(test)]
mod entries;
