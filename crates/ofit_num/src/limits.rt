/// The most groups of a study.
pub const MOST_GROUPS: u32 = 2_000;

/// The most rows of a study.
pub const MOST_ROWS: u32 = 100_000;

/// The most pairs of a study.
pub const MOST_PAIRS: u32 = 20_000;

/// The greatest absolute value of a row or a bound, in units.
pub const MOST_UNITS: u64 = 1_000_000_000;

/// The greatest weight of a row, and of all rows together.
pub const MOST_WEIGHT: u64 = 10_000_000_000;

/// The greatest absolute value of a fraction's numerator.
pub const MOST_NUM: u128 = 1_000_000_000_000_000_000_000;

/// The greatest denominator of a fraction.
pub const MOST_DEN: u128 = 1_000_000_000_000;

/// The greatest amount of a flow.
pub const MOST_AMOUNT: u128 = 2_000_000_000_000_000_000_000_000_000_000_000;

/// The greatest length of a name, in bytes.
pub const LONGEST_NAME: usize = 64;

/// The greatest length of a file, in bytes.
pub const LONGEST_FILE: u64 = 33_554_432;
