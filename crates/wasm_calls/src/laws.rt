//! Laws of runs, as contracts of functions that do nothing.

ghost use Rattle.wasm_calls.specs.Laws.{RunsEnd, EndsStay};

/// Each run ends, and what has ended stays.
pub fn runs_end()
    ensures end { RunsEnd }
    ensures stay { EndsStay }
{}
