//! Modules of the tests, in the binary format.

mod memories;
mod numbers;
mod others;

pub(crate) use memories::{MEMORY, MOST_PAGES, PAST_THE_PAGE, TOO_MANY_PAGES, UP_TO_THREE_PAGES};
pub(crate) use numbers::{NUMBERS_32, NUMBERS_64};
pub(crate) use others::{
    CONTROL, GLOBALS, LARGE, LOCALS, SEGMENT_AT_END, SEGMENT_PAST_END, SEVEN_IN_A_TABLE, START,
    START_AFTER_SEGMENTS, START_LOOPS, START_RECURS, START_TRAPS, TABLES, TOO_LARGE, TRAPS,
    WITH_AN_IMPORT,
};
