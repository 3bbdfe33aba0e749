ghost use Rattle.std.specs.Prelude.{◌≡◌, ◌≤◌, IfOk, length};
ghost use Rattle.ofit_sheet.specs.declared.peaked.limits.TheConstants.{MOST_PEAK_GROUPS};
ghost use Rattle.std.specs.List.{zip};
ghost use Rattle.ofit_num.specs.RowTotals.{all_rows};
ghost use Rattle.ofit_loss.specs.Rows.{AreFittable};
ghost use Rattle.ofit_cut.specs.Sets.{AreWithin};
ghost use Rattle.ofit_sides.specs.FirstFit.{rows_at, IsFirstFit};
ghost use Rattle.ofit_sides.specs.Leaving.{RiseByLow, AreLeaving};
ghost use Rattle.ofit_sides.specs.Sides.{IsRise};

use crate::chain::{certifying_amounts, tight_neighbours};
use crate::values::whole_values;
use ofit_cut::Amounts;
use ofit_num::{Frac, Groups};
use ofit_sheet::Side;
use std::alloc::{AllocError, Global};

/// What leaves each of so many groups along the pairs.
fn leaving_of(
    alloc: Global,
    count: usize,
    pairs: &[(u32, u32)],
    amounts: &Amounts,
) -> Result<Vec<i128>, AllocError>
    requires within { AreWithin pairs.now count }
    requires rising { RiseByLow pairs.now }
    requires counted { length amounts.now ≡ length pairs.now }
    requires few { count ≤ MOST_PEAK_GROUPS }
    requires few_pairs { length pairs.now ≤ MOST_PEAK_GROUPS }
    ensures { IfOk result (λ flows. AreLeaving count pairs.now amounts.now flows.items) }
{
    let mut flows = vec![in alloc; 0i128; count]?;
    for (index, pair) in pairs.iter().enumerate() {
        flows[pair.0 as usize] = amounts.amount(index as u32);
    }
    Ok(flows)
}

/// The steps of these values and amounts.
fn steps_of(alloc: Global, values: &[i64], amounts: &[i128]) -> Result<Vec<(i64, i128)>, AllocError>
    requires { length amounts.now ≡ length values.now }
    ensures { IfOk result (λ steps. steps.items ≡ zip values.now amounts.now) }
{
    let mut steps = Vec::new(alloc);
    for (index, value) in values.iter().enumerate() {
        steps.push((*value, amounts[index]))?;
    }
    Ok(steps)
}

/// The rise of the first groups at their chain's values. The amount of a step is what flows along the
/// pair to the next group, where the two have one value.
pub(crate) fn rise_of(alloc: Global, groups: &Groups, values: &[Frac]) -> Result<Side, AllocError>
    requires few { length values.now ≤ MOST_PEAK_GROUPS }
    requires fittable { AreFittable (all_rows groups.now) }
    requires fit { IsFirstFit groups.now values.now }
    ensures { IfOk result (λ side. IsRise (rows_at groups.now) (length values.now) side) }
{
    let whole = whole_values(alloc, values)?;
    let pairs = tight_neighbours(alloc, values)?;
    let amounts = certifying_amounts(alloc, groups, values, pairs.as_slice())?;
    let flows = leaving_of(alloc, values.len(), pairs.as_slice(), &amounts)?;
    let steps = steps_of(alloc, whole.as_slice(), flows.as_slice())?;
    Ok(Side::make(steps))
}
