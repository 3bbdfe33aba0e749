ghost use Rattle.std.specs.Prelude.{◌≡◌, ◌<◌, ◌^◌, IfOk, length, map, slice_index};
ghost use Rattle.std.specs.List.{All};
ghost use Rattle.ofit_study.specs.Study.{names_of, problem_stated};

use ofit_num::Groups;
use ofit_study::Study;
use std::alloc::{AllocError, Global};

/// The members at these positions.
pub(crate) fn members_at(
    alloc: Global,
    members: &[u32],
    positions: &[u32],
) -> Result<Vec<u32>, AllocError>
    requires { All (λ p. p < length members.now) positions.now }
    ensures { IfOk result (λ places. places.items ≡ map (slice_index members.now) positions.now) }
{
    let mut places = Vec::new(alloc);
    for position in positions {
        places.push(members[*position as usize])?;
    }
    Ok(places)
}

/// The rows of the groups at these places.
pub(crate) fn groups_at(alloc: Global, study: &Study, places: &[u32]) -> Result<Groups, AllocError>
    requires inside { All (λ g. g < length (names_of study.now)) places.now }
    requires few { length places.now < 2 ^ 32 }
    ensures { IfOk result (λ groups. groups ≡ map (problem_stated study.now).rows places.now) }
{
    let mut groups = Groups::new(alloc);
    for place in places {
        groups.add(study.rows_of(*place))?;
    }
    Ok(groups)
}
