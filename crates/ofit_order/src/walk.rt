ghost use Rattle.std.specs.Prelude.{◌≡◌};

use std::marker::Model;

/// A list of places, each joined with the next.
#[derive(Drop)]
pub struct Walk {
    places: Vec<u32>,
}

impl Model for Walk {
    ghost use Rattle.std.specs.Prelude.{List, ℕ};

    ghost Value = { List ℕ };

    ghost view = { λ w. w.places.items };
}

impl Walk {
    /// The walk over these places, in their order.
    pub fn make(places: Vec<u32>) -> Walk
        ensures { result ≡ places.items }
    {
        Walk { places }
    }

    /// The places, from the first to the last.
    pub fn places(&self) -> &[u32]
        ensures { result.now ≡ self.now }
    {
        self.places.as_slice()
    }
}
