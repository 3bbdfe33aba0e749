ghost use Rattle.std.specs.Prelude.{◌≡◌, ◌≢◌, ◌≤◌, ◌<◌, ◌^◌, ◌↔◌, ℕ, length, map, slice_get, Some, All, AllPairs, Contains, IfOk, MatchOption};
ghost use Rattle.ofit_study.specs.Kept.{named};
ghost use Rattle.ofit_study.specs.Study.{ComesBefore};

use crate::ends::indexes_by_end;
use crate::names::Names;
use std::alloc::{AllocError, Global};
use std::marker::Model;

/// Pairs of places, and for each place the indexes of the pairs that have it at an end.
pub(crate) struct Pairs {
    list: Vec<(u32, u32)>,
    by_end: Vec<Vec<u32>>,
}

/// Written out, so that a proof meets one call where a value is let go.
impl Drop for Pairs {
    fn drop(self) {
        let Pairs { list, by_end } = self;
        drop(list);
        drop(by_end);
    }
}

impl Model for Pairs {
    ghost use Rattle.std.specs.Prelude.{◌<◌, ◌^◌, length};
    ghost use Rattle.ofit_study.specs.Ends.{PairList, AreAtEnds, lists_of};

    ghost Value = { PairList };

    ghost view = { λ p. p.list.items };

    ghost invariant = { λ p. (length p.list.items < 2 ^ 32) × AreAtEnds p.list.items (lists_of p.by_end.items) };
}

impl Pairs {
    ghost use Rattle.std.specs.Prelude.{◌≡◌, ◌<◌, ◌^◌, [], length, All, IfOk};
    ghost use Rattle.ofit_study.specs.Ends.{indexes_at};

    /// No pairs. It takes no memory.
    pub(crate) fn new(alloc: Global) -> Pairs
        ensures { result ≡ [] }
    {
        Pairs {
            list: Vec::new(alloc),
            by_end: Vec::new(alloc),
        }
    }

    /// These pairs of places below `count`. Linear time and memory.
    pub(crate) fn make(
        alloc: Global,
        list: Vec<(u32, u32)>,
        count: u32,
    ) -> Result<Pairs, AllocError>
        requires few { length list.items < 2 ^ 32 }
        requires within { All (λ e. (e.0 < count) × (e.1 < count)) list.items }
        ensures { IfOk result (λ pairs. pairs ≡ list.items) }
    {
        let by_end = indexes_by_end(alloc, list.as_slice(), count)?;
        Ok(Pairs { list, by_end })
    }

    /// How many pairs there are.
    pub(crate) fn count(&self) -> u32
        ensures { result ≡ length self.now }
    {
        self.list.len() as u32
    }

    /// The pairs in their order.
    pub(crate) fn as_slice(&self) -> &[(u32, u32)]
        ensures { result.now ≡ self.now }
    {
        self.list.as_slice()
    }

    /// The indexes of the pairs that have a place at an end, in rising order.
    pub(crate) fn at_end(&self, place: u32) -> &[u32]
        ensures { result.now ≡ indexes_at self.now place }
    {
        match self.by_end.get(place as usize) {
            Some(indexes) => indexes.as_slice(),
            None => &[],
        }
    }

    /// The pairs once more.
    pub(crate) fn copy(&self) -> Result<Pairs, AllocError>
        ensures { IfOk result (λ pairs. pairs ≡ self.now) }
    {
        let alloc = *self.list.allocator();
        let list = Vec::from_slice(alloc, self.list.as_slice())?;
        let by_end = self.by_end.clone()?;
        Ok(Pairs { list, by_end })
    }
}

/// The pairs, each once, by the bytes of the low name, then of the high name. O(m log m) comparisons
/// for m pairs.
pub(crate) fn ordered_pairs(
    alloc: Global,
    names: &Names,
    pairs: &[(u32, u32)],
) -> Result<Vec<(u32, u32)>, AllocError>
    requires distinct { AllPairs (λ a b. a ≢ b) names.now }
    requires within { All (λ e. (e.0 < length names.now) × (e.1 < length names.now)) pairs.now }
    ensures in_order { IfOk result (λ v. AllPairs ComesBefore (map (named names.now) v.items)) }
    ensures same { IfOk result (λ v. (e : ℕ × ℕ) → Contains pairs.now e ↔ Contains v.items e) }
    ensures few { IfOk result (λ v. length v.items ≤ length pairs.now) }
{
    let mut sorted = Vec::from_slice(alloc, pairs)?;
    sorted.sort_by(|first, second| names.compare_pairs(*first, *second))?;
    sorted.dedup();
    Ok(sorted)
}

/// The index of a pair among pairs that are in the order of their names. O(log m) comparisons.
pub(crate) fn index_of(names: &Names, pairs: &[(u32, u32)], sought: (u32, u32)) -> Option<u32>
    requires in_order { AllPairs ComesBefore (map (named names.now) pairs.now) }
    requires few { length pairs.now < 2 ^ 32 }
    ensures { MatchOption result (Contains pairs.now sought → ⊥) (λ i. slice_get pairs.now i ≡ Some sought) }
{
    match pairs.binary_search_by(|pair| names.compare_pairs(*pair, sought)) {
        Ok(index) => Some(index as u32),
        Err(_) => None,
    }
}
