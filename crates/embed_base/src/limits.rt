//! The profile's limits.

/// The bytes of a script.
pub const MOST_SCRIPT_BYTES: u64 = 1_048_576;

/// The bytes of a module.
pub const MOST_MODULE_BYTES: u64 = 16_777_216;

/// The module files of a command line.
pub const MOST_MODULES: usize = 64;

/// The units of a budget.
pub const MOST_BUDGET: u64 = 1_000_000_000_000;

/// The units of a budget that the command line doesn't name.
pub const USUAL_BUDGET: u64 = 10_000_000;

/// The elements of an Array.
pub const MOST_ELEMENTS: u32 = 1_000_000;

/// The bytes that `new Uint8Array(n)` makes.
pub const MOST_NEW_BYTES: u64 = 16_777_216;

/// The bytes of a text.
pub const MOST_TEXT_BYTES: u64 = 1_048_576;

/// The activations that run at once.
pub const MOST_ACTIVATIONS: u32 = 10_000;

/// The constructs of a script that are open at once.
pub const MOST_OPEN: usize = 256;

/// The greatest whole number that a Number may be; its negative is the least one.
pub const GREATEST_NUMBER: u64 = 9_007_199_254_740_991;
