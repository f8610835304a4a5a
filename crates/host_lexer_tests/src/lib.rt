//! Tests of the tokens of scripts: cases that were worked out by hand from ECMA-262, section 12, and the profile.
#![tactic(auto)]

#[cfg(test)]
mod tokens;
