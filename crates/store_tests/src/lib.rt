//! Tests of the store over its public calls.
#![tactic(auto)]

#[cfg(test)]
mod calls;
#[cfg(test)]
mod instances;
#[cfg(test)]
mod tables;
