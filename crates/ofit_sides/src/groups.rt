ghost use Rattle.std.specs.Prelude.{◌≡◌, IfOk, reverse};
ghost use Rattle.ofit_study.specs.Study.{groups_of};

use ofit_num::Groups;
use ofit_study::Study;
use std::alloc::{AllocError, Global};

/// The rows of the study's groups, in their order. Linear time and memory.
pub fn groups_in_order(alloc: Global, study: &Study) -> Result<Groups, AllocError>
    ensures { IfOk result (λ groups. groups ≡ groups_of study.now) }
{
    let mut groups = Groups::new(alloc);
    for place in 0..study.group_count() {
        groups.add(study.rows_of(place))?;
    }
    Ok(groups)
}

/// The rows of the study's groups, the last group first.
pub(crate) fn groups_in_reverse(alloc: Global, study: &Study) -> Result<Groups, AllocError>
    ensures { IfOk result (λ groups. groups ≡ reverse (groups_of study.now)) }
{
    let mut groups = Groups::new(alloc);
    let count = study.group_count();
    for place in 0..count {
        groups.add(study.rows_of(count - 1 - place))?;
    }
    Ok(groups)
}
