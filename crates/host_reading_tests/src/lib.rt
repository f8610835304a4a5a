//! Tests of scripts read from their bytes: lines that were worked out by hand from the order of the refusals and their places.
#![tactic(auto)]

#[cfg(test)]
mod lines;
