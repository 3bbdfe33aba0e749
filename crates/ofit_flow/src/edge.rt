//! An edge of a net.

ghost use Rattle.std.specs.Prelude.{◌≡◌, ◌≤ℤ◌, pos};
ghost use Rattle.ofit_flow.specs.Residual.{other_end, pushed, residual};

/// The most that an edge can carry: 50,000 edges sum to 10^38 at most, below 2^127.
pub const MAX_CAPACITY: i128 = 2_000_000_000_000_000_000_000_000_000_000_000;

/// The most edges that a net can have.
pub const MAX_EDGES: usize = 50_000;

/// A directed edge of a net, with the most that it carries.
#[derive(Clone, Copy)]
pub struct Edge {
    pub from: u32,
    pub to: u32,
    pub cap: i128,
}

impl Edge {
    /// The end of the edge that is not `node`.
    pub(crate) fn other_end(&self, node: u32) -> u32
        ensures { result ≡ other_end self.now node }
    {
        if self.from == node {
            self.to
        } else {
            self.from
        }
    }

    /// How much more the edge can carry from `node` to its other end: forwards what is left of its
    /// capacity, backwards what it carries.
    pub(crate) fn residual(&self, amount: i128, node: u32) -> i128
        requires low { pos 0 ≤ℤ amount }
        requires high { amount ≤ℤ self.now.cap }
        ensures { result ≡ residual self.now amount node }
    {
        if self.from == node {
            self.cap - amount
        } else {
            amount
        }
    }

    /// The amount after `by` more has gone from `node` to the other end.
    pub(crate) fn pushed(&self, amount: i128, node: u32, by: i128) -> i128
        requires low { pos 0 ≤ℤ amount }
        requires high { amount ≤ℤ self.now.cap }
        requires small { self.now.cap ≤ℤ MAX_CAPACITY }
        requires positive { pos 0 ≤ℤ by }
        requires room { by ≤ℤ residual self.now amount node }
        ensures { result ≡ pushed self.now amount node by }
    {
        if self.from == node {
            amount + by
        } else {
            amount - by
        }
    }
}
