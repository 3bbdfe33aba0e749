ghost use Rattle.std.specs.Prelude.{◌≡◌, ◌↔◌, ℕ, IfOk};
ghost use Rattle.std.specs.List.{Contains};
ghost use Rattle.ofit_order.specs.Relation.{AreInOrder};
ghost use Rattle.ofit_order.specs.Within.{AreWithin};

use crate::degrees::{higher_counts, lower_counts};
use crate::members::members_of;
use crate::neighbours::neighbours_of;
use crate::order::Order;
use crate::pairs::distinct_pairs;
use crate::search::{Numbering, number_components};
use std::alloc::{AllocError, Global};

/// The order of `n` places by these pairs, low and high, in any order and any number of times.
///
/// Cycles and pairs with equal ends are accepted. O((n + m) log n) time and linear memory for m pairs.
pub fn check_order(alloc: Global, pairs: &[(u32, u32)], n: u32) -> Result<Order, AllocError>
    requires { AreWithin pairs.now n }
    ensures places { IfOk result (λ order. order.places ≡ n) }
    ensures in_order { IfOk result (λ order. AreInOrder order.pairs) }
    ensures same { IfOk result
        (λ order. (p : ℕ × ℕ) → Contains order.pairs p ↔ Contains pairs.now p) }
{
    let pairs = distinct_pairs(alloc, pairs)?;
    let rows = neighbours_of(alloc, pairs.as_slice(), n)?;
    let Numbering { components, count } = number_components(alloc, rows.as_slice(), n)?;
    let members = members_of(alloc, components.as_slice(), count, n)?;
    let highers = higher_counts(alloc, pairs.as_slice(), n)?;
    let lowers = lower_counts(alloc, pairs.as_slice(), n)?;
    Ok(Order {
        pairs,
        components,
        members,
        highers,
        lowers,
    })
}
