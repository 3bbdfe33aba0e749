ghost use Rattle.std.specs.Prelude.{◌≡◌, ◌<◌, All, length, IfOk, vec_len, false};
ghost use Rattle.ofit_num.specs.RowTotals.{all_rows};
ghost use Rattle.ofit_num.specs.Trial.{trial_of};
ghost use Rattle.ofit_num.specs.Fit.{LeastBestValues};
ghost use Rattle.ofit_num.specs.Settled.{IsSettled, IsLeastSettled};
ghost use Rattle.ofit_loss.specs.Rows.{AreFittable};
ghost use Rattle.ofit_chain.specs.Chain.{chain_problem};

use crate::stack::Stack;
use ofit_loss::Loss;
use ofit_num::{Frac, Groups};
use std::alloc::{AllocError, Global};

/// The fit of the chain: a value for each group, each at most the next one, such that the loss of all
/// rows at their groups' values is least, and pointwise the least of such values. One value a group,
/// in list order.
///
/// Adjacent groups that break the order are pooled (Ayer, Brunk, Ewing, Reid and Silverman, 1955),
/// each block at the least minimiser of its rows. Under squares it takes time linear in rows and
/// groups, under the median n (log n)^2 for n rows.
pub fn fit_chain<L: Loss>(alloc: Global, groups: &Groups) -> Result<Vec<Frac>, AllocError>
    requires filled { All (λ rows. 0 < length rows) groups.now }
    requires fittable { AreFittable (all_rows groups.now) }
    ensures count { IfOk result (λ values. vec_len values ≡ length groups.now) }
    ensures least_best { IfOk result (λ values. LeastBestValues L.meaning (chain_problem groups.now) values.items) }
    ensures settled { IfOk result (λ values. IsSettled L.meaning (chain_problem groups.now) (trial_of values.items)) }
    ensures least_settled { IfOk result (λ values. L.STRICT ≡ false → IsLeastSettled L.meaning (chain_problem groups.now) (trial_of values.items)) }
{
    let mut stack = Stack::<L>::new(alloc);
    for place in 0..groups.count() {
        stack.push(groups.rows(place))?;
    }
    stack.values(alloc)
}
