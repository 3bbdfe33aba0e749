ghost use Rattle.std.specs.Prelude.{◌≡◌, ◌<◌, ◌≤◌, length, Some, slice_get};
ghost use Rattle.ofit_sheet.specs.Peaked.{rise_at, fall_at};

use crate::peaked::side::Side;
use std::marker::Model;

/// A peaked sheet: the decimal places of its units, the place of the peak, the cost of the values, the
/// values, and the sides. Rise i is of the first i groups, fall i of the groups from the place i on. In
/// the sheet of a fit the sides are chain fits, which certify the values; one that is read has the shape
/// alone, and the checker tells the rest.
pub struct Peaked {
    places: u32,
    peak: Option<u32>,
    cost: u128,
    values: Vec<i64>,
    rises: Vec<Side>,
    falls: Vec<Side>,
}

/// Written out, so that a proof meets one call where a value is let go.
impl Drop for Peaked {
    fn drop(self) {
        let Peaked {
            places: _,
            peak: _,
            cost: _,
            values,
            rises,
            falls,
        } = self;
        drop(values);
        drop(rises);
        drop(falls);
    }
}

impl Model for Peaked {
    ghost use Rattle.ofit_sheet.specs.Peaked.{Peaked as Stated};

    ghost Value = { Stated };

    ghost view = { λ x. record { places = x.places; peak = x.peak; cost = x.cost; values = x.values.items; rises = x.rises.items; falls = x.falls.items } };
}

impl Peaked {
    /// The peaked sheet of these parts: rises from rise 1 on, and falls from fall 0 on.
    pub fn make(
        places: u32,
        peak: Option<u32>,
        cost: u128,
        values: Vec<i64>,
        rises: Vec<Side>,
        falls: Vec<Side>,
    ) -> Peaked
        ensures { result ≡ record { places = places; peak = peak; cost = cost; values = values.items; rises = rises.items; falls = falls.items } }
    {
        Peaked {
            places,
            peak,
            cost,
            values,
            rises,
            falls,
        }
    }

    /// The decimal places of a unit.
    pub fn places(&self) -> u32
        ensures { result ≡ self.now.places }
    {
        self.places
    }

    /// The place of the peak, where there are groups.
    pub fn peak(&self) -> Option<u32>
        ensures { result ≡ self.now.peak }
    {
        self.peak
    }

    /// The cost of the values, in units times weights.
    pub fn cost(&self) -> u128
        ensures { result ≡ self.now.cost }
    {
        self.cost
    }

    /// The value of the group at a place.
    pub fn value(&self, place: u32) -> i64
        requires { place < length self.now.values }
        ensures { slice_get self.now.values place ≡ Some result }
    {
        self.values[place as usize]
    }

    /// The rise of so many groups.
    pub fn rise(&self, length: u32) -> &Side
        requires least { 1 ≤ length }
        requires most { length ≤ Rattle.std.specs.Prelude.length self.now.rises }
        ensures { result.now ≡ rise_at self.now length }
    {
        &self.rises[length as usize - 1]
    }

    /// The fall from a place on.
    pub fn fall(&self, start: u32) -> &Side
        requires { start < length self.now.falls }
        ensures { result.now ≡ fall_at self.now start }
    {
        &self.falls[start as usize]
    }
}
