//! Tests of the object caches and their conversions, over public calls alone. Expected values are those of the WebAssembly
//! JavaScript Interface and ECMA-262.
#![tactic(auto)]

#[cfg(test)]
mod conversion_tests;
#[cfg(test)]
mod extern_tests;
#[cfg(test)]
mod object_tests;
mod realm;
mod samples;
