//! Tests of scripts at work, over public calls alone: transcripts that were worked out by hand from ECMA-262 and the profile.
#![tactic(auto)]

#[cfg(test)]
mod answers;
#[cfg(test)]
mod runs;
#[cfg(test)]
mod scripts;
