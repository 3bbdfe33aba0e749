ghost use Rattle.std.specs.Prelude.{◌≡◌, ◌<◌, ◌≤◌, IfOk};
ghost use Rattle.ofit_num.specs.declared.limits.TheConstants.{MOST_GROUPS};
ghost use Rattle.ofit_tree.specs.declared.direction.Direction.TheVariants.{RootGreatest};
ghost use Rattle.ofit_tree.specs.Tree.{tree_pairs, IsRootedTree};
ghost use Rattle.ofit_sheet.specs.Unimodal.{umbrella_pairs};
ghost use Rattle.ofit_unimodal.specs.Umbrella.{umbrella_parent, umbrella_parents};

use std::alloc::{AllocError, Global};
use std::cmp::Ordering;

/// The parent of a place in the umbrella with this peak: the next place towards the peak.
fn parent_of(peak: u32, place: u32) -> Option<u32>
    requires { place < MOST_GROUPS }
    ensures { result ≡ umbrella_parent peak place }
{
    match place.cmp(&peak) {
        Ordering::Less => Some(place + 1),
        Ordering::Equal => None,
        Ordering::Greater => Some(place - 1),
    }
}

/// The umbrella of so many places with this peak, as a tree whose root is the peak.
pub fn umbrella_tree(alloc: Global, places: u32, peak: u32) -> Result<Vec<Option<u32>>, AllocError>
    requires few { places ≤ MOST_GROUPS }
    requires peak { peak < places }
    ensures parents { IfOk result (λ parents. parents.items ≡ umbrella_parents peak places) }
    ensures rooted { IfOk result (λ parents. IsRootedTree parents.items) }
    ensures pairs { IfOk result (λ parents. tree_pairs RootGreatest parents.items ≡ umbrella_pairs peak places) }
{
    let mut parents = Vec::new(alloc);
    for place in 0..places {
        parents.push(parent_of(peak, place))?;
    }
    Ok(parents)
}
