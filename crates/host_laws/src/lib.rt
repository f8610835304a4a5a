//! Laws of the frames of scripts, for who stands above them: what a step may change of the heap, that what is live stays so, and which
//! effects wait for an answer.
#![tactic(auto)]

mod laws;

pub use laws::{kinds_stay, live_frames, live_heaps, steps_change, steps_stay_live, steps_wait};
