//! Laws of runs, as contracts of functions that do nothing.
ghost use Rattle.embed_run.specs.Outcomes.{EndsStay, OneOutcome};

/// A run has at most one outcome, and what has ended stays.
pub fn outcomes()
    ensures one { OneOutcome }
    ensures stay { EndsStay }
{}
