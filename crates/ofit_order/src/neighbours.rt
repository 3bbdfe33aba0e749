ghost use Rattle.std.specs.Prelude.{◌≡◌, ◌<◌, OnOk, IfOk, [], ◌∷◌, ◌++◌, vec_len, slice_set, replicate};
ghost use Rattle.ofit_order.specs.Within.{AreWithin};
ghost use Rattle.ofit_order.specs.Rows.{rows_of, row, AreNeighbours};

use std::alloc::{AllocError, Global};

/// Puts a place at the end of one of the rows.
pub(crate) fn put(rows: &mut Vec<Vec<u32>>, at: u32, place: u32) -> Result<(), AllocError>
    requires { at < vec_len rows.old }
    ensures { let old = rows_of rows.old.items in
        OnOk result (rows_of rows.new.items ≡ slice_set old at (row old at ++ place ∷ [])) }
{
    rows[at as usize].push(place)?;
    Ok(())
}

/// `count` rows with no place in them.
pub(crate) fn empty_rows(alloc: Global, count: u32) -> Result<Vec<Vec<u32>>, AllocError>
    ensures { IfOk result (λ rows. rows_of rows.items ≡ replicate count []) }
{
    let mut rows = Vec::new(alloc);
    for _ in 0..count {
        rows.push(Vec::new(alloc))?;
    }
    Ok(rows)
}

/// For each place the places that a pair joins with it, as often as one does.
pub(crate) fn neighbours_of(
    alloc: Global,
    pairs: &[(u32, u32)],
    places: u32,
) -> Result<Vec<Vec<u32>>, AllocError>
    requires { AreWithin pairs.now places }
    ensures rows { IfOk result (λ rows. vec_len rows ≡ places) }
    ensures neighbours { IfOk result (λ rows. AreNeighbours pairs.now (rows_of rows.items)) }
{
    let mut rows = empty_rows(alloc, places)?;
    for (low, high) in pairs {
        put(&mut rows, *low, *high)?;
        put(&mut rows, *high, *low)?;
    }
    Ok(rows)
}
