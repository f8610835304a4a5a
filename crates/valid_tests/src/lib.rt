//! Tests of the validator over modules that are made by hand, through its public calls.
#![tactic(auto)]

#[cfg(test)]
mod bodies;
#[cfg(test)]
mod modules;
#[cfg(test)]
mod parts;
