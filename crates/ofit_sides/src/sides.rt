ghost use Rattle.std.specs.Prelude.{◌≤◌, ◌<◌, All, IfOk, length};
ghost use Rattle.ofit_sheet.specs.declared.peaked.limits.TheConstants.{MOST_PEAK_GROUPS};
ghost use Rattle.ofit_num.specs.RowTotals.{all_rows};
ghost use Rattle.ofit_loss.specs.Rows.{AreFittable};
ghost use Rattle.ofit_study.specs.Study.{names_of, problem_stated};
ghost use Rattle.ofit_chain.specs.Chain.{chain_problem};
ghost use Rattle.ofit_sides.specs.Sides.{AreRises, AreFalls};

use crate::groups::{groups_in_order, groups_in_reverse};
use crate::steps::rise_of;
use crate::turn::turned;
use ofit_chain::Stack;
use ofit_loss::Median;
use ofit_num::Groups;
use ofit_sheet::Side;
use ofit_study::Study;
use std::alloc::{AllocError, Global};

/// The rises of all first groups, by one stack of the chain's fit.
fn rises_along(alloc: Global, groups: &Groups) -> Result<Vec<Side>, AllocError>
    requires few { length groups.now ≤ MOST_PEAK_GROUPS }
    requires filled { All (λ rows. 0 < length rows) groups.now }
    requires fittable { AreFittable (all_rows groups.now) }
    ensures { IfOk result (λ sides. AreRises (chain_problem groups.now) sides.items) }
{
    let mut stack = Stack::<Median>::new(alloc);
    let mut sides = Vec::new(alloc);
    for place in 0..groups.count() {
        stack.push(groups.rows(place))?;
        let values = stack.values(alloc)?;
        sides.push(rise_of(alloc, groups, values.as_slice())?)?;
    }
    Ok(sides)
}

/// The rises of an unknown peak: for each number i of groups from 1 on a fit under the median of the
/// first i groups to values that rise, with amounts that certify it. Bounds and pairs aren't read.
///
/// Adjacent groups that break the order are pooled (Ayer, Brunk, Ewing, Reid and Silverman, 1955), one
/// group after another, and the amounts are flows along neighbours of one value (Hoffman, 1960). For n
/// groups it takes the time of a chain fit and n times that of the rows.
pub fn rises_of(alloc: Global, study: &Study) -> Result<Vec<Side>, AllocError>
    requires few { length (names_of study.now) ≤ MOST_PEAK_GROUPS }
    ensures rises { IfOk result (λ sides. AreRises (problem_stated study.now) sides.items) }
{
    study.keeps_limits();
    let groups = groups_in_order(alloc, study)?;
    rises_along(alloc, &groups)
}

/// The falls of an unknown peak: for each place a fit under the median of the groups from it on to
/// values that fall, with amounts that certify it. Bounds and pairs aren't read. These are the rises of
/// the groups in reverse, each read from its other end, and take as long.
pub fn falls_of(alloc: Global, study: &Study) -> Result<Vec<Side>, AllocError>
    requires few { length (names_of study.now) ≤ MOST_PEAK_GROUPS }
    ensures falls { IfOk result (λ sides. AreFalls (problem_stated study.now) sides.items) }
{
    study.keeps_limits();
    let groups = groups_in_reverse(alloc, study)?;
    let rises = rises_along(alloc, &groups)?;
    let count = study.group_count();
    let mut falls = Vec::new(alloc);
    for place in 0..count {
        let length = count - place;
        falls.push(turned(alloc, &rises[length as usize - 1], length)?)?;
    }
    Ok(falls)
}
