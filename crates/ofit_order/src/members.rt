ghost use Rattle.std.specs.Prelude.{◌≡◌, ◌<◌, IfOk, length, vec_len};
ghost use Rattle.std.specs.List.{All};
ghost use Rattle.ofit_order.specs.Rows.{rows_of, ArePartsBelow};

use crate::neighbours::{empty_rows, put};
use std::alloc::{AllocError, Global};

/// For each component its places, in rising order.
pub(crate) fn members_of(
    alloc: Global,
    components: &[u32],
    count: u32,
    places: u32,
) -> Result<Vec<Vec<u32>>, AllocError>
    requires as_long { length components.now ≡ places }
    requires counted { All (λ k. k < count) components.now }
    ensures rows { IfOk result (λ rows. vec_len rows ≡ count) }
    ensures parts { IfOk result (λ rows. ArePartsBelow places components.now (rows_of rows.items)) }
{
    let mut rows = empty_rows(alloc, count)?;
    for place in 0..places {
        put(&mut rows, components[place as usize], place)?;
    }
    Ok(rows)
}
