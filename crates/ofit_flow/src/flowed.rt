//! A maximum flow and its cuts.

ghost use Rattle.std.specs.Prelude.{◌≡◌, ◌<◌, length};
ghost use Rattle.ofit_flow.specs.Flow.{amount_at};
ghost use Rattle.ofit_flow.specs.Network.{members};

use std::marker::Model;

/// A maximum flow with its smallest and largest minimum cuts. Every call takes constant time.
pub struct Flowed {
    value: i128,
    amounts: Vec<i128>,
    source_side: Vec<bool>,
    sink_side: Vec<bool>,
}

/// Written out, so that a proof meets one call where a value is let go.
impl Drop for Flowed {
    fn drop(self) {
        let Flowed {
            value: _,
            amounts,
            source_side,
            sink_side,
        } = self;
        drop(amounts);
        drop(source_side);
        drop(sink_side);
    }
}

impl Model for Flowed {
    ghost use Rattle.ofit_flow.specs.Network.{Routing};

    ghost Value = { Routing };

    ghost view = { λ f. record {
      value = f.value;
      amounts = f.amounts.items;
      source_side = f.source_side.items;
      sink_side = f.sink_side.items;
    } };
}

impl Flowed {
    pub(crate) fn new(
        value: i128,
        amounts: Vec<i128>,
        source_side: Vec<bool>,
        sink_side: Vec<bool>,
    ) -> Flowed
        ensures { result ≡ record { value = value; amounts = amounts.items; source_side = source_side.items; sink_side = sink_side.items } }
    {
        Flowed {
            value,
            amounts,
            source_side,
            sink_side,
        }
    }

    /// What goes from the source to the sink in all.
    pub fn value(&self) -> i128
        ensures { result ≡ self.now.value }
    {
        self.value
    }

    /// What the edge of this number carries.
    pub fn amount(&self, edge: u32) -> i128
        requires { edge < length self.now.amounts }
        ensures { result ≡ amount_at self.now.amounts edge }
    {
        self.amounts[edge as usize]
    }

    /// Whether the source still reaches the node: whether it is in the smallest minimum cut.
    pub fn source_side(&self, node: u32) -> bool
        requires { node < length self.now.source_side }
        ensures { result ≡ members self.now.source_side node }
    {
        self.source_side[node as usize]
    }

    /// Whether the node still reaches the sink: whether it is outside the largest minimum cut.
    pub fn sink_side(&self, node: u32) -> bool
        requires { node < length self.now.sink_side }
        ensures { result ≡ members self.now.sink_side node }
    {
        self.sink_side[node as usize]
    }
}
