//! Tests of the command: its words, the run of a script, and the top call over files and an output in memory.
#![tactic(auto)]

#[cfg(test)]
mod run;
#[cfg(test)]
mod script;
#[cfg(test)]
mod words;
