ghost use Rattle.std.specs.Prelude.{◌≡◌, ◌<◌, ◌≤◌, All, IfOk, length, unsigned_abs};
ghost use Rattle.ofit_num.specs.declared.limits.TheConstants.{MOST_GROUPS, MOST_UNITS};
ghost use Rattle.ofit_num.specs.Fit.{LeastBest};
ghost use Rattle.ofit_num.specs.RowTotals.{all_rows};
ghost use Rattle.ofit_num.specs.Loss.{median};
ghost use Rattle.ofit_loss.specs.Rows.{AreFittable};
ghost use Rattle.ofit_sheet.specs.Unimodal.{umbrella, whole_trial};
ghost use Rattle.ofit_unimodal.specs.Fitted.{lone};

use crate::umbrella::umbrella_tree;
use ofit_loss::Median;
use ofit_num::Groups;
use ofit_sides::whole_values;
use ofit_tree::{Direction, fit_tree};
use std::alloc::{AllocError, Global};

/// The least best values among those that rise up to this peak and fall from it.
pub(crate) fn fit_umbrella(
    alloc: Global,
    groups: &Groups,
    peak: u32,
) -> Result<Vec<i64>, AllocError>
    requires filled { All (λ rows. 0 < length rows) groups.now }
    requires fittable { AreFittable (all_rows groups.now) }
    requires few { length groups.now ≤ MOST_GROUPS }
    requires peak { peak < length groups.now }
    ensures count { IfOk result (λ values. length values.items ≡ length groups.now) }
    ensures least_best { IfOk result (λ values. LeastBest median (umbrella (lone groups.now) peak) (whole_trial values.items)) }
    ensures small { IfOk result (λ values. All (λ value. unsigned_abs value ≤ MOST_UNITS) values.items) }
{
    let parents = umbrella_tree(alloc, groups.count(), peak)?;
    let values = fit_tree::<Median>(alloc, groups, parents.as_slice(), Direction::RootGreatest)?;
    whole_values(alloc, values.as_slice())
}
