ghost use Rattle.std.specs.Prelude.{◌↔◌, ℕ, IfOk};
ghost use Rattle.std.specs.List.{Contains};
ghost use Rattle.ofit_order.specs.Relation.{AreInOrder};

use std::alloc::{AllocError, Global};

/// The distinct pairs, by low place and then by high place.
pub(crate) fn distinct_pairs(
    alloc: Global,
    pairs: &[(u32, u32)],
) -> Result<Vec<(u32, u32)>, AllocError>
    ensures in_order { IfOk result (λ v. AreInOrder v.items) }
    ensures same { IfOk result (λ v. (p : ℕ × ℕ) → Contains v.items p ↔ Contains pairs.now p) }
{
    let mut sorted = Vec::from_slice(alloc, pairs)?;
    sorted.sort()?;
    sorted.dedup();
    Ok(sorted)
}
