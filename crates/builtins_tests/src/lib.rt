//! Tests of predefined objects and methods, over public calls alone. Expected values are those of ECMA-262 and the profile.
#![tactic(auto)]

#[cfg(test)]
mod call_tests;
#[cfg(test)]
mod construct_tests;
#[cfg(test)]
mod kinds;
#[cfg(test)]
mod member_call_tests;
#[cfg(test)]
mod name_tests;
#[cfg(test)]
mod samples;
