//! Laws of promises for callers, as contracts of functions that do nothing.
ghost use Rattle.promise_jobs.specs.Laws.{ActedStays, CallsAreLater, CallsKeepPlaces, CallsQueueBehind, FirstIsTaken, PairsActOnce, ReactionsAddTheirs, SettledStays, TakenLeavesTheQueue};

/// Promises and pairs keep their numbers, a settled promise its value, and a pair that has acted does nothing more.
pub fn what_stays()
    ensures later { CallsAreLater }
    ensures settled { SettledStays }
    ensures acted { ActedStays }
{}

/// A pair acts once.
pub fn pairs_act_once()
    ensures { PairsActOnce }
{}

/// Jobs are taken first in, first out.
pub fn jobs_in_order()
    ensures behind { CallsQueueBehind }
    ensures first { FirstIsTaken }
{}

/// A computation that is handed in once, to be resumed at both ends of a promise, waits in exactly one place until its job is taken,
/// and then in none.
pub fn computations_resume_once()
    ensures kept { CallsKeepPlaces }
    ensures added { ReactionsAddTheirs }
    ensures taken { TakenLeavesTheQueue }
{}
