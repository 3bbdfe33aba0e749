ghost use Rattle.std.specs.Prelude.{ℕ, IfOk};
ghost use Rattle.ofit_num.specs.Unbounded.{without_bounds};
ghost use Rattle.ofit_num.specs.Fit.{LeastBestValues};
ghost use Rattle.ofit_order.specs.Shape.{RunsTo};
ghost use Rattle.ofit_study.specs.Study.{problem_stated};
ghost use Rattle.ofit_fit.specs.Part.{part_of};
ghost use Rattle.ofit_fit.specs.Piece.{IsFittable, ArePlaces};
ghost use Rattle.ofit_fit.specs.Links.{AreLinks, AreWholeMembers};
ghost use Rattle.ofit_fit.specs.Direct.{Leads};

use crate::links::{links_down, links_up};
use crate::members::groups_at;
use ofit_loss::Loss;
use ofit_num::Frac;
use ofit_order::Order;
use ofit_study::Study;
use ofit_tree::{Direction, fit_tree};
use std::alloc::{AllocError, Global};

/// For each member the position of its parent: the next member towards the root.
fn parents_of(
    alloc: Global,
    pairs: &[(u32, u32)],
    members: &[u32],
    direction: Direction,
) -> Result<Vec<Option<u32>>, AllocError>
    requires { AreWholeMembers pairs.now members.now }
    ensures { IfOk result (λ parents. AreLinks (Leads direction pairs.now) members.now parents.items) }
{
    match direction {
        Direction::RootGreatest => links_up(alloc, pairs, members),
        Direction::RootLeast => links_down(alloc, pairs, members),
    }
}

/// The values of a component that is a rooted tree, in the order of its members.
pub(crate) fn fit_as_tree<L: Loss>(
    alloc: Global,
    study: &Study,
    order: &Order,
    members: &[u32],
    direction: Direction,
) -> Result<Vec<Frac>, AllocError>
    requires study { IsFittable study.now order.now }
    requires places { ArePlaces study.now order.now members.now }
    requires tree { (root : ℕ) × RunsTo (Leads direction order.now.pairs) members.now root }
    ensures { IfOk result (λ values. LeastBestValues L.meaning (part_of (without_bounds (problem_stated study.now)) members.now) values.items) }
{
    let parents = parents_of(alloc, order.pairs(), members, direction)?;
    let groups = groups_at(alloc, study, members)?;
    fit_tree::<L>(alloc, &groups, parents.as_slice(), direction)
}
