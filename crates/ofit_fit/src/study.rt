ghost use Rattle.std.specs.Prelude.{◌≡◌, ◌+◌, ◌≤◌, ◌^◌, ℕ, IfOk, OnOk, OnErr, length, vec_len, slice_get, Some, None};
ghost use Rattle.ofit_num.specs.Clipped.{HasConstantBounds};
ghost use Rattle.ofit_num.specs.Fit.{LeastBestValues};
ghost use Rattle.ofit_num.specs.Fraction.{Fraction};
ghost use Rattle.ofit_num.specs.MaxMin.{MaxMin};
ghost use Rattle.ofit_study.specs.declared.loss.LossKind.TheVariants.{Squares};
ghost use Rattle.ofit_study.specs.Study.{groups_of, problem_stated, meaning_of};
ghost use Rattle.ofit_fit.specs.OrderOf.{IsOrderOf};
ghost use Rattle.ofit_fit.specs.Counted.{HasComponentCount, HasCutCount};

use crate::component::fit_component;
use crate::values::put_values;
use ofit_num::{Frac, Tally};
use ofit_order::Order;
use ofit_study::Study;
use std::alloc::{AllocError, Global};

/// A list of zeros.
fn zeros(alloc: Global, count: u32) -> Result<Vec<Frac>, AllocError>
    ensures { IfOk result (λ values. vec_len values ≡ count) }
{
    let Some(zero) = Frac::make(0, 1) else {
        unreachable!();
    };
    vec![in alloc; zero; count as usize]
}

/// The values of all components, each put at its groups' places.
fn fit_components(
    alloc: Global,
    study: &Study,
    order: &Order,
    mut fitted: Vec<Frac>,
    tally: &mut Tally,
) -> Result<Vec<Frac>, AllocError>
    requires order { IsOrderOf order.now (problem_stated study.now) }
    requires as_long { vec_len fitted ≡ length (groups_of study.now) }
    requires room { tally.old.fits ≤ 2 ^ 63 }
    requires room_for_cuts { tally.old.cuts ≤ 2 ^ 63 }
    ensures least_best { IfOk result (λ values. LeastBestValues (meaning_of study.now.settings.loss) (problem_stated study.now) values.items) }
    ensures counted { OnOk result ((n : ℕ) × HasComponentCount (problem_stated study.now) n × (tally.new.fits ≡ tally.old.fits + n)) }
    ensures limited { OnErr result ((n : ℕ) → HasComponentCount (problem_stated study.now) n → tally.new.fits ≤ tally.old.fits + n) }
    ensures grown { tally.old.fits ≤ tally.new.fits }
    ensures cuts { OnOk result ((n : ℕ) × HasCutCount (problem_stated study.now) n × (tally.new.cuts ≡ tally.old.cuts + n)) }
    ensures limited_cuts { OnErr result ((n : ℕ) → HasCutCount (problem_stated study.now) n → tally.new.cuts ≤ tally.old.cuts + n) }
    ensures grown_cuts { tally.old.cuts ≤ tally.new.cuts }
    ensures fewer_cuts { tally.new.cuts + tally.old.fits ≤ tally.old.cuts + tally.new.fits }
{
    study.keeps_limits();
    for component in 0..order.component_count() {
        let values = fit_component(alloc, study, order, component, tally)?;
        put_values(&mut fitted, order.members(component), values.as_slice());
    }
    Ok(fitted)
}

/// The least-cost values of the study within its bounds, one for each group in the groups' order, and of
/// these the pointwise least. Under squares without bounds the value of a group is the greatest, over upper
/// sets that hold it, of the least, over lower sets that hold it, of the weighted mean of the groups in both
/// (Robertson, Wright and Dykstra, Order Restricted Statistical Inference, 1988, chapter 1). The tally
/// counts each component that is fitted, and each that is fitted by cuts.
pub fn fit_study(alloc: Global, study: &Study, tally: &mut Tally) -> Result<Vec<Frac>, AllocError>
    requires room { tally.old.fits ≤ 2 ^ 63 }
    requires room_for_cuts { tally.old.cuts ≤ 2 ^ 63 }
    ensures least_best { IfOk result (λ values. LeastBestValues (meaning_of study.now.settings.loss) (problem_stated study.now) values.items) }
    ensures max_min { study.now.settings.loss ≡ Squares → HasConstantBounds (problem_stated study.now) None None
        → IfOk result (λ values. (g : ℕ) (v : Fraction) → slice_get values.items g ≡ Some v → MaxMin (problem_stated study.now) g v) }
    ensures counted { OnOk result ((n : ℕ) × HasComponentCount (problem_stated study.now) n × (tally.new.fits ≡ tally.old.fits + n)) }
    ensures limited { OnErr result ((n : ℕ) → HasComponentCount (problem_stated study.now) n → tally.new.fits ≤ tally.old.fits + n) }
    ensures grown { tally.old.fits ≤ tally.new.fits }
    ensures cuts { OnOk result ((n : ℕ) × HasCutCount (problem_stated study.now) n × (tally.new.cuts ≡ tally.old.cuts + n)) }
    ensures limited_cuts { OnErr result ((n : ℕ) → HasCutCount (problem_stated study.now) n → tally.new.cuts ≤ tally.old.cuts + n) }
    ensures grown_cuts { tally.old.cuts ≤ tally.new.cuts }
    ensures fewer_cuts { tally.new.cuts + tally.old.fits ≤ tally.old.cuts + tally.new.fits }
{
    let order = study.order(alloc)?;
    let values = zeros(alloc, study.group_count())?;
    fit_components(alloc, study, &order, values, tally)
}
