//! Tests of the machine through scripts: numbers, control, tables, memories, globals and start functions, over the top call.
#![tactic(auto)]

#[cfg(test)]
mod modules;
#[cfg(test)]
mod running;
#[cfg(test)]
mod with_memories;
