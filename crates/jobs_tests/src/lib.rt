//! Tests of promises and jobs: sequences that were worked out by hand from ECMA-262, section 27.2.
#![tactic(auto)]

#[cfg(test)]
mod sequences;
