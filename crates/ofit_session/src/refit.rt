ghost use Rattle.std.specs.Prelude.{◌≡◌, ◌+◌, ◌≤◌, ◌^◌, ℕ, IfOk, OnOk, OnErr, List, length};
ghost use Rattle.std.specs.List.{Contains};
ghost use Rattle.ofit_num.specs.Fit.{LeastBestValues};
ghost use Rattle.ofit_order.specs.Component.{AreMembers};
ghost use Rattle.ofit_order.specs.Numbers.{HasComponent};
ghost use Rattle.ofit_fit.specs.Part.{part_of, values_at};
ghost use Rattle.ofit_fit.specs.OrderOf.{IsOrderOf};
ghost use Rattle.ofit_study.specs.Study.{groups_of, problem_stated, meaning_of};
ghost use Rattle.ofit_session.specs.Fitted.{IsFit};

use ofit_fit::{fit_component, put_values};
use ofit_num::{Frac, Tally};
use ofit_order::Order;
use ofit_study::Study;
use std::alloc::{AllocError, Global};

/// The values with those of these components fitted anew, where those of all others are fitted already.
pub(crate) fn refitted(
    alloc: Global,
    study: &Study,
    order: &Order,
    components: &[u32],
    mut values: Vec<Frac>,
    tally: &mut Tally,
) -> Result<Vec<Frac>, AllocError>
    requires order { IsOrderOf order.now (problem_stated study.now) }
    requires as_long { length values.items ≡ length (groups_of study.now) }
    requires known { (k : ℕ) → Contains components.now k → HasComponent order.now k }
    requires few { length components.now ≤ 2 }
    requires others { (k : ℕ) (members : List ℕ) → (Contains components.now k → ⊥) → AreMembers order.now k members
        → LeastBestValues (meaning_of study.now.settings.loss) (part_of (problem_stated study.now) members) (values_at values.items members) }
    requires room { tally.old.fits ≤ 2 ^ 63 + 2 ^ 32 }
    requires room_for_cuts { tally.old.cuts ≤ 2 ^ 63 + 2 ^ 32 }
    ensures fit { IfOk result (λ fitted. IsFit study.now fitted.items) }
    ensures counted { OnOk result (tally.new.fits ≡ tally.old.fits + length components.now) }
    ensures limited { OnErr result (tally.new.fits ≤ tally.old.fits + length components.now) }
    ensures grown { tally.old.fits ≤ tally.new.fits }
    ensures grown_cuts { tally.old.cuts ≤ tally.new.cuts }
    ensures fewer_cuts { tally.new.cuts + tally.old.fits ≤ tally.old.cuts + tally.new.fits }
{
    study.keeps_limits();
    let _components = order.component_count();
    for component in components {
        let picked = fit_component(alloc, study, order, *component, tally)?;
        put_values(&mut values, order.members(*component), picked.as_slice());
    }
    Ok(values)
}
