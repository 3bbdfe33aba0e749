ghost use Rattle.std.specs.Prelude.{◌≡◌, ◌<◌, ◌≤◌, ◌+◌, ◌-◌, ◌^◌, All, Any, IfOk, length, vec_len, Some, None, false};
ghost use Rattle.ofit_num.specs.declared.limits.TheConstants.{MOST_GROUPS, MOST_PAIRS};
ghost use Rattle.ofit_num.specs.RowTotals.{all_rows};
ghost use Rattle.ofit_num.specs.Trial.{trial_of};
ghost use Rattle.ofit_num.specs.Fit.{LeastBestValues};
ghost use Rattle.ofit_num.specs.Settled.{IsSettled, IsLeastSettled};
ghost use Rattle.ofit_loss.specs.Rows.{AreFittable, IsPlain};
ghost use Rattle.ofit_partition.specs.Piece.{partition_problem};
ghost use Rattle.ofit_partition.specs.Work.{AreValues};

use crate::cut::Ordered;
use crate::work::settled_values;
use ofit_loss::Loss;
use ofit_num::{Frac, Groups, Tally};
use std::alloc::{AllocError, Global};

/// The values, of which none is missing.
fn values_of(alloc: Global, settled: &[Option<Frac>]) -> Result<Vec<Frac>, AllocError>
    requires { All (λ v. v ≡ None → ⊥) settled.now }
    ensures { IfOk result (λ values. AreValues (length settled.now) settled.now values.items) }
{
    let mut values = Vec::new(alloc);
    for value in settled {
        match value {
            Some(value) => values.push(*value)?,
            None => unreachable!(),
        }
    }
    Ok(values)
}

/// The fit of groups in any order: a value for each group, for each pair (low, high) the low one's at
/// most the high one's, such that the loss of all rows at their groups' values is least, and pointwise
/// the least of such values. One value a group, in list order. Pairs may close cycles, have equal ends,
/// and stand more than once. The tally counts a fit by cuts, whatever the answer.
///
/// Each piece of the order, at first the whole, is pooled and cut by the upper set that gains most by
/// rising from the pooled value (Robertson, Wright and Dykstra, Order Restricted Statistical Inference,
/// 1988; Picard 1976 for the cut). Where none gains, the groups that the value suits are done. With n
/// groups it takes at most 3n minimum cuts, each of a piece alone.
pub fn partition<L: Loss>(
    alloc: Global,
    groups: &Groups,
    pairs: &[(u32, u32)],
    tally: &mut Tally,
) -> Result<Vec<Frac>, AllocError>
    requires plain { All (λ rows. Any IsPlain rows) groups.now }
    requires fittable { AreFittable (all_rows groups.now) }
    requires few_groups { length groups.now ≤ MOST_GROUPS }
    requires few_pairs { length pairs.now ≤ MOST_PAIRS }
    requires places { All (λ e. (e.0 < length groups.now) × (e.1 < length groups.now)) pairs.now }
    requires room { tally.old.cuts < 2 ^ 64 - 1 }
    ensures count { IfOk result (λ values. vec_len values ≡ length groups.now) }
    ensures least_best { IfOk result (λ values. LeastBestValues L.meaning (partition_problem groups.now pairs.now) values.items) }
    ensures settled { IfOk result (λ values. IsSettled L.meaning (partition_problem groups.now pairs.now) (trial_of values.items)) }
    ensures least_settled { IfOk result (λ values. L.STRICT ≡ false → IsLeastSettled L.meaning (partition_problem groups.now pairs.now) (trial_of values.items)) }
    ensures counted { tally.new ≡ record tally.old { cuts = tally.old.cuts + 1 } }
{
    tally.note_cut();
    let ordered = Ordered { groups, pairs };
    let settled = settled_values::<L>(alloc, ordered)?;
    values_of(alloc, &settled)
}
