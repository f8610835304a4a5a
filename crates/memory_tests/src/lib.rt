//! Tests of the store's memories and data segments over its public calls.
#![tactic(auto)]

#[cfg(test)]
mod memories;
mod paged;
