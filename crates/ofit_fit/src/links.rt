ghost use Rattle.std.specs.Prelude.{◌≡◌, ◌<◌, ◌≤◌, ◌^◌, ◌↔◌, ℕ, IfOk, length, slice_index, slice_index_or, vec_len};
ghost use Rattle.std.specs.List.{Contains};
ghost use Rattle.std.specs.List.Sorted.{IsStrictlyIncreasing};
ghost use Rattle.ofit_order.specs.Relation.{AreInOrder};
ghost use Rattle.ofit_order.specs.Connection.{LeadsUp};
ghost use Rattle.ofit_order.specs.Shape.{LeadsDown};
ghost use Rattle.ofit_fit.specs.Links.{IsLink, IsRun, AreLinks, AreLinkedBack, AreWholeMembers};

use std::alloc::{AllocError, Global};

/// The index of the first pair whose low place is not below the place.
fn start_of(pairs: &[(u32, u32)], place: u32) -> usize
    requires { AreInOrder pairs.now }
    ensures bound { result ≤ length pairs.now }
    ensures before { (k : ℕ) (d : ℕ × ℕ) → k < result → (slice_index_or pairs.now k d).0 < place }
    ensures after { (k : ℕ) (d : ℕ × ℕ) → result ≤ k → k < length pairs.now → place ≤ (slice_index_or pairs.now k d).0 }
{
    pairs.partition_point(|pair| pair.0 < place)
}

/// The index of the first pair whose low place is above the place.
fn end_of(pairs: &[(u32, u32)], place: u32) -> usize
    requires { AreInOrder pairs.now }
    ensures bound { result ≤ length pairs.now }
    ensures before { (k : ℕ) (d : ℕ × ℕ) → k < result → (slice_index_or pairs.now k d).0 ≤ place }
    ensures after { (k : ℕ) (d : ℕ × ℕ) → result ≤ k → k < length pairs.now → place < (slice_index_or pairs.now k d).0 }
{
    pairs.partition_point(|pair| pair.0 <= place)
}

/// The pairs that lead up from a place, by binary search.
pub(crate) fn pairs_above(pairs: &[(u32, u32)], place: u32) -> &[(u32, u32)]
    requires { AreInOrder pairs.now }
    ensures above { (e : ℕ × ℕ) → Contains result.now e ↔ (Contains pairs.now e × (e.0 ≡ place)) }
    ensures run { IsRun pairs.now place (length result.now) }
{
    let start = start_of(pairs, place);
    let end = end_of(pairs, place);
    if start < end { &pairs[start..end] } else { &[] }
}

/// Where a place stands among the members.
pub(crate) fn position_of(members: &[u32], place: u32) -> u32
    requires rising { IsStrictlyIncreasing members.now }
    requires few { length members.now < 2 ^ 32 }
    requires member { Contains members.now place }
    ensures inside { result < length members.now }
    ensures at { slice_index members.now result ≡ place }
{
    match members.binary_search(&place) {
        Ok(position) => position as u32,
        Err(_) => unreachable!(),
    }
}

/// The position of the member above a place, if there is one.
fn link_up(pairs: &[(u32, u32)], members: &[u32], place: u32) -> Option<u32>
    requires in_order { AreInOrder pairs.now }
    requires rising { IsStrictlyIncreasing members.now }
    requires few { length members.now < 2 ^ 32 }
    requires closed { (b : ℕ) → LeadsUp pairs.now place b → Contains members.now b }
    ensures { IsLink (LeadsUp pairs.now) members.now place result }
{
    let above = pairs_above(pairs, place);
    if above.is_empty() {
        None
    } else {
        Some(position_of(members, above[0].1))
    }
}

/// For each member the position of a member that a pair leads up to, in O(n log m) time for n members
/// and m pairs.
pub(crate) fn links_up(
    alloc: Global,
    pairs: &[(u32, u32)],
    members: &[u32],
) -> Result<Vec<Option<u32>>, AllocError>
    requires { AreWholeMembers pairs.now members.now }
    ensures { IfOk result (λ links. AreLinks (LeadsUp pairs.now) members.now links.items) }
{
    let mut links = Vec::new(alloc);
    for place in members {
        links.push(link_up(pairs, members, *place))?;
    }
    Ok(links)
}

/// Links each of the members that these pairs lead up to, back to the member at `position`.
fn link_back(links: &mut Vec<Option<u32>>, above: &[(u32, u32)], members: &[u32], position: u32)
    requires as_long { vec_len links.old ≡ length members.now }
    requires rising { IsStrictlyIncreasing members.now }
    requires few { length members.now < 2 ^ 32 }
    requires inside { (a b : ℕ) → Contains above.now (a, b) → Contains members.now b }
    ensures { AreLinkedBack members.now above.now position links.old.items links.new.items }
{
    for pair in above {
        links[position_of(members, pair.1) as usize] = Some(position);
    }
}

/// For each member the position of a member that a pair leads up from, in O(n log m) time for n
/// members and m pairs, when no member has many pairs.
pub(crate) fn links_down(
    alloc: Global,
    pairs: &[(u32, u32)],
    members: &[u32],
) -> Result<Vec<Option<u32>>, AllocError>
    requires { AreWholeMembers pairs.now members.now }
    ensures { IfOk result (λ links. AreLinks (LeadsDown pairs.now) members.now links.items) }
{
    let mut links = vec![in alloc; None; members.len()]?;
    for (position, place) in members.iter().enumerate() {
        link_back(
            &mut links,
            pairs_above(pairs, *place),
            members,
            position as u32,
        );
    }
    Ok(links)
}
