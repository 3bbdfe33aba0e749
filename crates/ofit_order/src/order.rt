ghost use Rattle.std.specs.Prelude.{◌≡◌, ◌<◌, ◌^◌, ◌↔◌, ℕ, List};
ghost use Rattle.std.specs.List.{Contains};
ghost use Rattle.ofit_order.specs.Relation.{AreInOrder};
ghost use Rattle.ofit_order.specs.Within.{AreWithin};
ghost use Rattle.ofit_order.specs.Connection.{LeadsUp, AreConnected};
ghost use Rattle.ofit_order.specs.Component.{IsComponentCount, IsComponentOf, AreMembers};
ghost use Rattle.ofit_order.specs.Numbers.{HasComponent};
ghost use Rattle.ofit_order.specs.Form.{HasForm};
ghost use Rattle.ofit_order.specs.Shape.{HasShape};

use crate::form::{Form, form_by, is_at_most_one, total};
use std::marker::Model;

/// An order of places by distinct pairs, with its components: the largest sets of places that pairs
/// join, taken in either direction. In clauses it is its number of places and its pairs.
pub struct Order {
    pub(crate) pairs: Vec<(u32, u32)>,
    pub(crate) components: Vec<u32>,
    pub(crate) members: Vec<Vec<u32>>,
    pub(crate) highers: Vec<usize>,
    pub(crate) lowers: Vec<usize>,
}

/// Written out, so that a proof meets one call where a value is let go.
impl Drop for Order {
    fn drop(self) {
        let Order {
            pairs,
            components,
            members,
            highers,
            lowers,
        } = self;
        drop(pairs);
        drop(components);
        drop(members);
        drop(highers);
        drop(lowers);
    }
}

impl Model for Order {
    ghost use Rattle.std.specs.Prelude.{length};
    ghost use Rattle.ofit_order.specs.Relation.{Relation};
    ghost use Rattle.ofit_order.specs.Rows.{rows_of};
    ghost use Rattle.ofit_order.specs.Sound.{IsSound};

    ghost Value = { Relation };

    ghost view = { λ o. record { places = length o.components.items; pairs = o.pairs.items } };

    ghost invariant = { λ o. IsSound (record { places = length o.components.items; pairs = o.pairs.items })
        o.components.items (rows_of o.members.items) o.highers.items o.lowers.items };
}

impl Order {
    /// The distinct pairs of a low and a high place, by low place and then by high place.
    pub fn pairs(&self) -> &[(u32, u32)]
        ensures { result.now ≡ self.now.pairs }
    {
        self.pairs.as_slice()
    }

    /// How many components there are. Each place lies in one of them, and each has its list of places.
    pub fn component_count(&self) -> u32
        ensures count { IsComponentCount self.now result }
        ensures in_order { AreInOrder self.now.pairs }
        ensures within { AreWithin self.now.pairs self.now.places }
        ensures small { self.now.places < 2 ^ 32 }
        ensures each { (k : ℕ) → k < result → HasComponent self.now k }
        ensures covers { (p : ℕ) → p < self.now.places → (k : ℕ) × (k < result) × IsComponentOf self.now k p }
        ensures listed { (k : ℕ) → k < result → (members : List ℕ) × AreMembers self.now k members }
    {
        self.members.len() as u32
    }

    /// The number of the place's component. Components are numbered from 0 by their least places.
    pub fn component_of(&self, place: u32) -> u32
        requires { place < self.now.places }
        ensures number { IsComponentOf self.now result place }
        ensures component { HasComponent self.now result }
        ensures only { (k : ℕ) → IsComponentOf self.now k place → k ≡ result }
        ensures connected { (q : ℕ) → q < self.now.places
            → IsComponentOf self.now result q ↔ AreConnected self.now.pairs place q }
    {
        self.components[place as usize]
    }

    /// The places of a component, in rising order.
    pub fn members(&self, component: u32) -> &[u32]
        requires { HasComponent self.now component }
        ensures members { AreMembers self.now component result.now }
        ensures closed { (a b : ℕ) → LeadsUp self.now.pairs a b → Contains result.now a ↔ Contains result.now b }
    {
        self.members[component as usize].as_slice()
    }

    /// The form of a component, in time linear in its members.
    pub fn form(&self, component: u32) -> Form
        requires { HasComponent self.now component }
        ensures form { HasForm self.now component result }
        ensures shape { HasShape self.now component result }
    {
        let members = self.members(component);
        let pairs = total(self.highers.as_slice(), members);
        form_by(
            pairs + 1 == members.len(),
            is_at_most_one(self.highers.as_slice(), members),
            is_at_most_one(self.lowers.as_slice(), members),
        )
    }
}
