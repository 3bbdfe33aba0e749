//! Which of several greatest sets is meant.

/// Which of the sets with the greatest sum is asked for.
#[derive(Clone, Copy, Debug, PartialEq, Eq)]
pub enum Tie {
    /// The set that is inside all of them.
    Smallest,
    /// The set that has all of them inside.
    Largest,
}
