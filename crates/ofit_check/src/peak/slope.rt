ghost use Rattle.std.specs.Prelude.{◌↔◌, IsTrue};
ghost use Rattle.ofit_check.specs.PeakSteps.{AreInOrder};

/// Which way a side goes.
#[derive(Clone, Copy)]
pub(crate) enum Slope {
    /// Each value is at most the next one.
    Rise,
    /// Each value is at least the next one.
    Fall,
}

impl Slope {
    /// Whether a value and the next one are in the side's order.
    pub(crate) fn is_in_order(self, value: i64, next: i64) -> bool
        ensures { IsTrue result ↔ AreInOrder self value next }
    {
        match self {
            Slope::Rise => value <= next,
            Slope::Fall => next <= value,
        }
    }
}
