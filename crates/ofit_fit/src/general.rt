ghost use Rattle.std.specs.Prelude.{◌≡◌, ◌+◌, ◌-◌, ◌<◌, ◌≤◌, ◌^◌, ℕ, IfOk, OnOk, length};
ghost use Rattle.std.specs.List.{Contains};
ghost use Rattle.std.specs.List.Sorted.{IsStrictlyIncreasing};
ghost use Rattle.ofit_num.specs.Unbounded.{without_bounds};
ghost use Rattle.ofit_num.specs.Fit.{LeastBestValues};
ghost use Rattle.ofit_study.specs.Study.{problem_stated};
ghost use Rattle.ofit_fit.specs.Part.{part_of};
ghost use Rattle.ofit_fit.specs.Piece.{IsFittable, ArePlaces};
ghost use Rattle.ofit_fit.specs.Links.{AreAdded, ArePairsBetween, AreWholeMembers};

use crate::links::{pairs_above, position_of};
use crate::members::groups_at;
use ofit_loss::Loss;
use ofit_num::{Frac, Tally};
use ofit_order::Order;
use ofit_partition::partition;
use ofit_study::Study;
use std::alloc::{AllocError, Global};

/// Adds these pairs, which lead up from the member at `position`, each place by its position.
fn add_pairs(
    found: &mut Vec<(u32, u32)>,
    above: &[(u32, u32)],
    members: &[u32],
    position: u32,
) -> Result<(), AllocError>
    requires rising { IsStrictlyIncreasing members.now }
    requires few { length members.now < 2 ^ 32 }
    requires inside { (a b : ℕ) → Contains above.now (a, b) → Contains members.now b }
    ensures { OnOk result (AreAdded members.now above.now position found.old.items found.new.items) }
{
    for pair in above {
        found.push((position, position_of(members, pair.1)))?;
    }
    Ok(())
}

/// The pairs between the members, each place by its position, in O((n + m) log m) time for n members
/// with m pairs.
fn pairs_between(
    alloc: Global,
    pairs: &[(u32, u32)],
    members: &[u32],
) -> Result<Vec<(u32, u32)>, AllocError>
    requires { AreWholeMembers pairs.now members.now }
    ensures { IfOk result (λ found. ArePairsBetween pairs.now members.now found.items) }
{
    let mut found = Vec::new(alloc);
    for (position, place) in members.iter().enumerate() {
        add_pairs(
            &mut found,
            pairs_above(pairs, *place),
            members,
            position as u32,
        )?;
    }
    Ok(found)
}

/// The values of a component of any form, in the order of its members. The tally counts the fit by
/// cuts; want of memory may come before it is counted.
pub(crate) fn fit_by_cuts<L: Loss>(
    alloc: Global,
    study: &Study,
    order: &Order,
    members: &[u32],
    tally: &mut Tally,
) -> Result<Vec<Frac>, AllocError>
    requires study { IsFittable study.now order.now }
    requires places { ArePlaces study.now order.now members.now }
    requires room { tally.old.cuts < 2 ^ 64 - 1 }
    ensures least_best { IfOk result (λ values. LeastBestValues L.meaning (part_of (without_bounds (problem_stated study.now)) members.now) values.items) }
    ensures counted { OnOk result (tally.new.cuts ≡ tally.old.cuts + 1) }
    ensures grown { tally.old.cuts ≤ tally.new.cuts }
    ensures most { tally.new.cuts ≤ tally.old.cuts + 1 }
    ensures fits { tally.new.fits ≡ tally.old.fits }
{
    let pairs = pairs_between(alloc, order.pairs(), members)?;
    let groups = groups_at(alloc, study, members)?;
    partition::<L>(alloc, &groups, &pairs, tally)
}
