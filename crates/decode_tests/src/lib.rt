//! Tests of the decoder of WebAssembly's binary format, over its public calls alone.
#![tactic(auto)]

#[cfg(test)]
mod cases;
#[cfg(test)]
mod contents;
#[cfg(test)]
mod integers;
#[cfg(test)]
mod large;
#[cfg(test)]
mod making;
#[cfg(test)]
mod refusals;
#[cfg(test)]
mod samples;
