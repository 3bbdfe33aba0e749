ghost use Rattle.std.specs.Prelude.{◌≡◌, ◌+◌, ◌-◌, ◌<◌, ◌^◌, ℕ, IfOk, List};
ghost use Rattle.ofit_num.specs.Unbounded.{without_bounds};
ghost use Rattle.ofit_num.specs.Fit.{LeastBestValues};
ghost use Rattle.ofit_order.specs.Component.{AreMembers};
ghost use Rattle.ofit_order.specs.Numbers.{HasComponent};
ghost use Rattle.ofit_study.specs.Study.{problem_stated, meaning_of};
ghost use Rattle.ofit_fit.specs.Part.{part_of};
ghost use Rattle.ofit_fit.specs.OrderOf.{IsOrderOf};
ghost use Rattle.ofit_fit.specs.Piece.{IsFittable};
ghost use Rattle.ofit_fit.specs.Counted.{CountsCut};

use crate::chain::fit_as_chain;
use crate::clip::values_within;
use crate::general::fit_by_cuts;
use crate::tree::fit_as_tree;
use ofit_loss::{Loss, Median, Squares};
use ofit_num::{Frac, Tally};
use ofit_order::{Form, Order};
use ofit_study::{LossKind, Study};
use ofit_tree::Direction;
use std::alloc::{AllocError, Global};

/// The values of a component, in the order of its members, by the form of the component.
fn fit_form<L: Loss>(
    alloc: Global,
    study: &Study,
    order: &Order,
    component: u32,
    tally: &mut Tally,
) -> Result<Vec<Frac>, AllocError>
    requires study { IsFittable study.now order.now }
    requires component { HasComponent order.now component }
    requires room { tally.old.cuts < 2 ^ 64 - 1 }
    ensures least_best { IfOk result (λ values. (members : List ℕ) → AreMembers order.now component members
        → LeastBestValues L.meaning (part_of (without_bounds (problem_stated study.now)) members) values.items) }
    ensures cuts { CountsCut order.now component result tally.old.cuts tally.new.cuts }
    ensures fits { tally.new.fits ≡ tally.old.fits }
{
    study.keeps_limits();
    let members = order.members(component);
    match order.form(component) {
        Form::Chain => fit_as_chain::<L>(alloc, study, order, members),
        Form::TreeUp => fit_as_tree::<L>(alloc, study, order, members, Direction::RootGreatest),
        Form::TreeDown => fit_as_tree::<L>(alloc, study, order, members, Direction::RootLeast),
        Form::General => fit_by_cuts::<L>(alloc, study, order, members, tally),
    }
}

/// The values of a component without bounds, in the order of its members.
fn fit_free(
    alloc: Global,
    study: &Study,
    order: &Order,
    component: u32,
    tally: &mut Tally,
) -> Result<Vec<Frac>, AllocError>
    requires study { IsFittable study.now order.now }
    requires component { HasComponent order.now component }
    requires room { tally.old.cuts < 2 ^ 64 - 1 }
    ensures least_best { IfOk result (λ values. (members : List ℕ) → AreMembers order.now component members
        → LeastBestValues (meaning_of study.now.settings.loss) (part_of (without_bounds (problem_stated study.now)) members) values.items) }
    ensures cuts { CountsCut order.now component result tally.old.cuts tally.new.cuts }
    ensures fits { tally.new.fits ≡ tally.old.fits }
{
    match study.settings().loss {
        LossKind::Squares => fit_form::<Squares>(alloc, study, order, component, tally),
        LossKind::Median => fit_form::<Median>(alloc, study, order, component, tally),
    }
}

/// The least-cost values of one component of the study's order within the study's bounds, one for each
/// member in the members' order, and of these the pointwise least: those without bounds, cut off at the
/// bounds. The tally counts the fit, whatever the answer, and beside it a fit by cuts, where the
/// component is neither a chain nor a rooted tree; there want of memory may come before the cut is
/// counted.
///
/// For n members with m pairs it takes O((n + m) log m) time and the time of the fit.
pub fn fit_component(
    alloc: Global,
    study: &Study,
    order: &Order,
    component: u32,
    tally: &mut Tally,
) -> Result<Vec<Frac>, AllocError>
    requires order { IsOrderOf order.now (problem_stated study.now) }
    requires component { HasComponent order.now component }
    requires room { tally.old.fits < 2 ^ 64 - 1 }
    requires room_for_cuts { tally.old.cuts < 2 ^ 64 - 1 }
    ensures counted { tally.new.fits ≡ tally.old.fits + 1 }
    ensures cuts { CountsCut order.now component result tally.old.cuts tally.new.cuts }
    ensures least_best { IfOk result (λ values. (members : List ℕ) → AreMembers order.now component members
        → LeastBestValues (meaning_of study.now.settings.loss) (part_of (problem_stated study.now) members) values.items) }
{
    tally.note_fit();
    study.keeps_limits();
    let values = fit_free(alloc, study, order, component, tally)?;
    values_within(alloc, study, order.members(component), &values)
}
