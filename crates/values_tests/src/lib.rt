//! Tests of values, the heap and conversions, over public calls alone. Expected values are those of ECMA-262, Web IDL and the
//! profile.
#![tactic(auto)]

#[cfg(test)]
mod bounds;
#[cfg(test)]
mod comparisons;
#[cfg(test)]
mod conversion_tests;
#[cfg(test)]
mod heap_tests;
#[cfg(test)]
mod operator_tests;
#[cfg(test)]
mod samples;
#[cfg(test)]
mod shown;
#[cfg(test)]
mod sums;
