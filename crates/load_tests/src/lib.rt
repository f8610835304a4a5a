//! Tests of loading: which modules are valid, from their bytes.
#![tactic(auto)]

#[cfg(test)]
mod validation;
