//! How large a call may be.

/// The most nodes that a call here takes.
pub const MAX_NODES: usize = 2_000;

/// The most pairs that a call here takes.
pub const MAX_PAIRS: usize = 20_000;
