//! The amounts of flows along pairs.

ghost use Rattle.std.specs.Prelude.{◌≡◌, ◌<◌, ◌≤◌, IfOk, length, take, ℤ, slice_index_or, pos};

use ofit_flow::Flowed;
use std::alloc::{AllocError, Global};
use std::marker::Model;

/// An amount for each pair, in the order of the pairs.
#[derive(Drop)]
pub struct Amounts {
    amounts: Vec<i128>,
}

impl Model for Amounts {
    ghost use Rattle.std.specs.Prelude.{List, ℤ};

    ghost Value = { List ℤ };

    ghost view = { λ a. a.amounts.items };
}

impl Amounts {
    /// These amounts.
    pub(crate) fn of(amounts: Vec<i128>) -> Amounts
        ensures { result ≡ amounts.items }
    {
        Amounts { amounts }
    }

    /// What the first edges of a flow carry.
    pub(crate) fn of_first(
        alloc: Global,
        flowed: &Flowed,
        count: u32,
    ) -> Result<Amounts, AllocError>
        requires { count ≤ length flowed.now.amounts }
        ensures { IfOk result (λ amounts. amounts ≡ take count flowed.now.amounts) }
    {
        let mut amounts = Vec::new(alloc);
        for edge in 0..count {
            amounts.push(flowed.amount(edge))?;
        }
        Ok(Amounts { amounts })
    }

    /// The amount along the pair of this index.
    pub fn amount(&self, index: u32) -> i128
        requires { index < length self.now }
        ensures { result ≡ slice_index_or self.now index (pos 0) }
    {
        self.amounts[index as usize]
    }
}
