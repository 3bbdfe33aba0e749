ghost use Rattle.std.specs.Prelude.{◌≡◌, ◌<◌, ◌^◌, [], ◌∷◌, ◌++◌, length, replicate, vec_len, slice_set, slice_index_or, All, IfOk, OnOk};
ghost use Rattle.ofit_study.specs.Ends.{AreAtEnds, lists_of};

use std::alloc::{AllocError, Global};

/// Puts an index at the end of one of the lists.
fn put(lists: &mut Vec<Vec<u32>>, place: u32, index: u32) -> Result<(), AllocError>
    requires { place < vec_len lists.old }
    ensures { let old = lists_of lists.old.items in
        OnOk result (lists_of lists.new.items ≡ slice_set old place (slice_index_or old place [] ++ index ∷ [])) }
{
    lists[place as usize].push(index)?;
    Ok(())
}

/// `count` empty lists.
fn empty_lists(alloc: Global, count: u32) -> Result<Vec<Vec<u32>>, AllocError>
    ensures { IfOk result (λ lists. lists_of lists.items ≡ replicate count []) }
{
    let mut lists = Vec::new(alloc);
    for _ in 0..count {
        lists.push(Vec::new(alloc))?;
    }
    Ok(lists)
}

/// For each of `count` places the indexes of the pairs that have it at an end, in rising order. Linear
/// time and memory.
pub(crate) fn indexes_by_end(
    alloc: Global,
    pairs: &[(u32, u32)],
    count: u32,
) -> Result<Vec<Vec<u32>>, AllocError>
    requires few { length pairs.now < 2 ^ 32 }
    requires within { All (λ e. (e.0 < count) × (e.1 < count)) pairs.now }
    ensures { IfOk result (λ lists. AreAtEnds pairs.now (lists_of lists.items)) }
{
    let mut lists = empty_lists(alloc, count)?;
    for (index, (low, high)) in pairs.iter().enumerate() {
        put(&mut lists, *low, index as u32)?;
        if *low != *high {
            put(&mut lists, *high, index as u32)?;
        }
    }
    Ok(lists)
}
