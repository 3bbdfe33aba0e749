/// The most groups of a study with a peaked sheet.
pub const MOST_PEAK_GROUPS: u32 = 200;

/// The greatest cost that a peaked sheet tells.
pub const MOST_COST: u128 = 1_000_000_000_000_000_000_000_000_000_000;
