//! A span of balances.

ghost use Rattle.std.specs.Prelude.{◌≡◌, ◌≤◌, ◌*◌, ◌^◌};
ghost use Rattle.ofit_cut.specs.Span.{IsOrdered, span_size};
ghost use Rattle.ofit_cut.specs.Slack.{IsBase, rise, fall};

use ofit_flow::MAX_CAPACITY;

/// The least and the greatest balance that a node may have, out less in. `None` is an open end.
#[derive(Clone, Copy, Debug, PartialEq, Eq)]
pub struct Span {
    pub least: Option<i128>,
    pub greatest: Option<i128>,
}

impl Span {
    /// The balance of the span that is nearest to 0.
    pub(crate) fn base(&self) -> i128
        requires { IsOrdered self.now }
        ensures { IsBase self.now result }
    {
        match self.least {
            Some(least) if least > 0 => least,
            _ => match self.greatest {
                Some(greatest) if greatest < 0 => greatest,
                _ => 0,
            },
        }
    }

    /// How far a balance can rise.
    pub(crate) fn rise(&self, balance: i128) -> i128
        requires base { IsBase self.now balance }
        requires small { span_size self.now ≤ 2 * 10 ^ 33 }
        ensures { result ≡ rise self.now.greatest balance }
    {
        match self.greatest {
            Some(end) => end - balance,
            None => MAX_CAPACITY,
        }
    }

    /// How far a balance can fall.
    pub(crate) fn fall(&self, balance: i128) -> i128
        requires base { IsBase self.now balance }
        requires small { span_size self.now ≤ 2 * 10 ^ 33 }
        ensures { result ≡ fall self.now.least balance }
    {
        match self.least {
            Some(end) => balance - end,
            None => MAX_CAPACITY,
        }
    }
}
