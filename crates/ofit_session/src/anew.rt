ghost use Rattle.std.specs.Prelude.{◌≡◌, ◌≤◌, ◌+◌, ◌^◌, ◌⊎◌, ℕ, IfOk, OnOk, OnErr};
ghost use Rattle.ofit_fit.specs.Counted.{HasComponentCount, HasCutCount};
ghost use Rattle.ofit_fit.specs.OrderOf.{IsOrderOf};
ghost use Rattle.ofit_study.specs.Edited.{IsAfter};
ghost use Rattle.ofit_study.specs.Study.{problem_stated};
ghost use Rattle.ofit_session.specs.Fitted.{IsFit};
ghost use Rattle.ofit_session.specs.Refit.{IsRefit};

use crate::carry::carried;
use crate::refit::refitted;
use crate::touch::touched_components;
use ofit_fit::fit_study;
use ofit_num::{Frac, Tally};
use ofit_order::Order;
use ofit_study::{Edit, Study};
use std::alloc::{AllocError, Global};

/// What an edit fitted anew.
#[derive(Clone, Copy, Debug, PartialEq, Eq)]
pub struct Touch {
    /// The components of the edited study that hold a touched group.
    pub refitted: u32,
    /// All components of the edited study.
    pub components: u32,
}

/// The order of a study, and its values.
pub(crate) fn fit_first(
    alloc: Global,
    study: &Study,
    tally: &mut Tally,
) -> Result<(Order, Vec<Frac>), AllocError>
    requires room { tally.old.fits ≤ 2 ^ 63 }
    requires room_for_cuts { tally.old.cuts ≤ 2 ^ 63 }
    ensures order { IfOk result (λ made. IsOrderOf made.0 (problem_stated study.now)) }
    ensures fit { IfOk result (λ made. IsFit study.now made.1.items) }
    ensures counted { OnOk result ((n : ℕ) × HasComponentCount (problem_stated study.now) n × (tally.new.fits ≡ tally.old.fits + n)) }
    ensures limited { OnErr result ((n : ℕ) → HasComponentCount (problem_stated study.now) n → tally.new.fits ≤ tally.old.fits + n) }
    ensures grown { tally.old.fits ≤ tally.new.fits }
    ensures cuts { OnOk result ((n : ℕ) × HasCutCount (problem_stated study.now) n × (tally.new.cuts ≡ tally.old.cuts + n)) }
    ensures grown_cuts { tally.old.cuts ≤ tally.new.cuts }
    ensures fewer_cuts { tally.new.cuts + tally.old.fits ≤ tally.old.cuts + tally.new.fits }
{
    let order = study.order(alloc)?;
    let values = fit_study(alloc, study, tally)?;
    Ok((order, values))
}

/// The values of an edited study, from those before the edit: the components that hold a touched group
/// are fitted, and the tally counts each.
fn fit_edited(
    alloc: Global,
    before: &Study,
    values: &[Frac],
    edit: &Edit,
    after: &Study,
    order: &Order,
    tally: &mut Tally,
) -> Result<(Vec<Frac>, Touch), AllocError>
    requires fit { IsFit before.now values.now }
    requires order { IsOrderOf order.now (problem_stated after.now) }
    requires edited { IsAfter before.now edit.now after.now }
    requires room { tally.old.fits ≤ 2 ^ 63 + 2 ^ 32 }
    requires room_for_cuts { tally.old.cuts ≤ 2 ^ 63 + 2 ^ 32 }
    ensures fit { IfOk result (λ made. IsFit after.now made.0.items) }
    ensures refitted { IfOk result (λ made. IsRefit before.now edit.now after.now made.1.refitted) }
    ensures components { IfOk result (λ made. HasComponentCount (problem_stated after.now) made.1.components) }
    ensures few { IfOk result (λ made. made.1.refitted ≤ 2) }
    ensures counted { IfOk result (λ made. tally.new.fits ≡ tally.old.fits + made.1.refitted) }
    ensures limited { OnErr result ((tally.new ≡ tally.old) ⊎ ((n : ℕ) × IsRefit before.now edit.now after.now n × (tally.new.fits ≤ tally.old.fits + n))) }
    ensures grown { tally.old.fits ≤ tally.new.fits }
    ensures grown_cuts { tally.old.cuts ≤ tally.new.cuts }
    ensures fewer_cuts { tally.new.cuts + tally.old.fits ≤ tally.old.cuts + tally.new.fits }
{
    before.keeps_limits();
    after.keeps_limits();
    let count = order.component_count();
    let touched = touched_components(alloc, order, before, edit, after)?;
    let own = carried(alloc, before, values, after)?;
    let fitted = refitted(alloc, after, order, touched.as_slice(), own, tally)?;
    let touch = Touch {
        refitted: touched.len() as u32,
        components: count,
    };
    Ok((fitted, touch))
}

/// The order of an edited study, and its values, as [`fit_edited`] makes them.
pub(crate) fn fit_after(
    alloc: Global,
    before: &Study,
    values: &[Frac],
    edit: &Edit,
    after: &Study,
    tally: &mut Tally,
) -> Result<(Order, Vec<Frac>, Touch), AllocError>
    requires fit { IsFit before.now values.now }
    requires edited { IsAfter before.now edit.now after.now }
    requires room { tally.old.fits ≤ 2 ^ 63 + 2 ^ 32 }
    requires room_for_cuts { tally.old.cuts ≤ 2 ^ 63 + 2 ^ 32 }
    ensures order { IfOk result (λ made. IsOrderOf made.0 (problem_stated after.now)) }
    ensures fit { IfOk result (λ made. IsFit after.now made.1.items) }
    ensures refitted { IfOk result (λ made. IsRefit before.now edit.now after.now made.2.refitted) }
    ensures components { IfOk result (λ made. HasComponentCount (problem_stated after.now) made.2.components) }
    ensures few { IfOk result (λ made. made.2.refitted ≤ 2) }
    ensures counted { IfOk result (λ made. tally.new.fits ≡ tally.old.fits + made.2.refitted) }
    ensures limited { OnErr result ((tally.new ≡ tally.old) ⊎ ((n : ℕ) × IsRefit before.now edit.now after.now n × (tally.new.fits ≤ tally.old.fits + n))) }
    ensures grown { tally.old.fits ≤ tally.new.fits }
    ensures grown_cuts { tally.old.cuts ≤ tally.new.cuts }
    ensures fewer_cuts { tally.new.cuts + tally.old.fits ≤ tally.old.cuts + tally.new.fits }
{
    let order = after.order(alloc)?;
    let (fitted, touch) = fit_edited(alloc, before, values, edit, after, &order, tally)?;
    Ok((order, fitted, touch))
}
