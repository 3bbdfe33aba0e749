/// The most lines of a script.
pub const MOST_LINES: u32 = 10_000;

/// The most lines of a script that print a report or a sheet.
pub const MOST_PRINTS: u32 = 100;
