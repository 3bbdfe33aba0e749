pub(crate) mod change;
mod prepare;

use crate::entry::{Entry, gap_among, index_of_number};
use crate::groups::GroupRows;
use crate::names::Names;
use crate::pairs::{Pairs, index_of, ordered_pairs};
use crate::settings::Settings;
pub use change::RowChange;
use ofit_num::Row;
use ofit_order::{Order, check_order};
use std::alloc::{AllocError, Global};
use std::cmp::Ordering;
use std::marker::Model;

/// Rows of named groups, pairs of groups of which the low one is to be at most the high one, and the
/// settings of a fit. Groups have places from 0, in the order of their first rows; a pair may have
/// equal ends, and pairs may form cycles. Linear memory.
pub struct Study {
    settings: Settings,
    names: Names,
    entries: Vec<Entry>,
    groups: GroupRows,
    pairs: Pairs,
    weight: u64,
}

/// Written out, so that a proof meets one call where a value is let go.
impl Drop for Study {
    fn drop(self) {
        let Study {
            settings: _,
            names,
            entries,
            groups,
            pairs,
            weight: _,
        } = self;
        drop(names);
        drop(entries);
        drop(groups);
        drop(pairs);
    }
}

impl Model for Study {
    ghost use Rattle.ofit_study.specs.Study.{Study as Stated};
    ghost use Rattle.ofit_study.specs.Kept.{made_of, AreKept};

    ghost Value = { Stated };

    ghost view = { λ s. made_of s.settings s.names s.entries.items s.pairs };

    ghost invariant = { λ s. AreKept s.settings s.names s.entries.items s.groups s.pairs s.weight };
}

impl Study {
    ghost use Rattle.std.specs.Prelude.{◌≡◌, ◌≢◌, ◌≤◌, ◌<◌, ◌+◌, ◌^◌, ◌↔◌, ℕ, [], length, map, All, AllPairs, Contains, IfOk, OnOk, OnErr, MatchOption, slice_get, Some};
    ghost use Rattle.ofit_order.specs.Relation.{AreInOrder};
    ghost use Rattle.ofit_study.specs.Settings.{InLimits, IsBoundInLimits};
    ghost use Rattle.ofit_study.specs.Added.{observation, with_row, IsFirstGap, IsPlaceOf};
    ghost use Rattle.ofit_study.specs.Edited.{HasRow};
    ghost use Rattle.ofit_study.specs.Kept.{name_at, named};
    ghost use Rattle.ofit_study.specs.Splice.{IsRowAt};
    ghost use Rattle.ofit_study.specs.Ends.{indexes_at};
    ghost use Rattle.std.specs.Ordering.{nat_cmp};
    ghost use Rattle.ofit_study.specs.Study.{Observation, ComesBefore, IsValid, HasPairs, most_pairs, names_of, groups_of, places_of, bounds_of, total_weight};
    ghost use Rattle.ofit_study.specs.Empty.{empty_study};

    /// The study of no rows. It takes no memory.
    pub fn empty(alloc: Global, settings: Settings) -> Study
        requires { InLimits settings }
        ensures { result ≡ empty_study settings }
    {
        Study {
            settings,
            names: Names::new(alloc),
            entries: Vec::new(alloc),
            groups: GroupRows::new(alloc),
            pairs: Pairs::new(alloc),
            weight: 0,
        }
    }

    /// Puts a row after the others, in the group with the name; a new name makes a group after the
    /// others.
    pub(crate) fn push(&mut self, name: &[u8], row: Row) -> Result<(), AllocError>
        requires { IsValid (with_row self.old (observation name.now row)) }
        ensures ok { OnOk result (self.new ≡ with_row self.old (observation name.now row)) }
        ensures err { OnErr result (self.new ≡ self.old) }
    {
        self.push_at(self.place_near(name), name, row)
    }

    /// Puts a row after the others, in the group of this place and name; with no place the name makes a
    /// group after the others.
    pub(crate) fn push_at(
        &mut self,
        place: Option<u32>,
        name: &[u8],
        row: Row,
    ) -> Result<(), AllocError>
        requires place { IsPlaceOf self.old name.now place }
        requires valid { IsValid (with_row self.old (observation name.now row)) }
        ensures ok { OnOk result (self.new ≡ with_row self.old (observation name.now row)) }
        ensures err { OnErr result (self.new ≡ self.old) }
    {
        match place {
            Some(place) => self.add_to_group(place, row),
            None => self.add_group(name, row),
        }
    }

    /// The place of the group with a name, as `place_of` gives it. It is found without hashing where it is
    /// that of the last row, or the next one.
    pub(crate) fn place_near(&self, name: &[u8]) -> Option<u32>
        ensures { IsPlaceOf self.now name.now result }
    {
        self.names.place_near(self.latest_place(), name)
    }

    /// How many rows have the numbers from 1 on, before the least number that no row has.
    pub(crate) fn first_gap(&self) -> usize
        ensures { IsFirstGap (map (λ r. r.number) self.now.rows) result }
    {
        gap_among(self.entries.as_slice())
    }

    /// The index of the row of a number.
    pub(crate) fn row_index(&self, number: u32) -> Option<usize>
        ensures { MatchOption result (HasRow self.now number → ⊥) (λ index. IsRowAt self.now index number) }
    {
        index_of_number(self.entries.as_slice(), number)
    }

    /// The row at an index, with the name of its group.
    pub(crate) fn row_at(&self, index: usize) -> (&[u8], Row)
        requires { index < length self.now.rows }
        ensures { slice_get self.now.rows index ≡ Some (observation result.0.now result.1) }
    {
        let entry = self.entries[index];
        (self.names.at(entry.place), entry.row)
    }

    /// The place of the group of the row at an index.
    pub(crate) fn place_at(&self, index: usize) -> u32
        requires { index < length self.now.rows }
        ensures inside { result < length (names_of self.now) }
        ensures group { (r : Observation) → slice_get self.now.rows index ≡ Some r → name_at (names_of self.now) result ≡ r.group }
    {
        self.entries[index].place
    }

    /// The place of the row that was added last, 0 where there is none.
    fn latest_place(&self) -> u32 {
        match self.entries.last() {
            Some(entry) => entry.place,
            None => 0,
        }
    }

    /// Puts a row into the group at a place.
    fn add_to_group(&mut self, place: u32, row: Row) -> Result<(), AllocError>
        requires place { place < length (names_of self.old) }
        requires valid { IsValid (with_row self.old (observation (name_at (names_of self.old) place) row)) }
        ensures ok { OnOk result (self.new ≡ with_row self.old (observation (name_at (names_of self.old) place) row)) }
        ensures err { OnErr result (self.new ≡ self.old) }
    {
        self.entries.push(Entry { place, row })?;
        match self.groups.add_row(place, row) {
            Ok(()) => {
                self.weight += row.weight;
                Ok(())
            }
            Err(full) => {
                self.entries.pop();
                Err(full)
            }
        }
    }

    /// Puts a row into a new group.
    fn add_group(&mut self, name: &[u8], row: Row) -> Result<(), AllocError>
        requires new { All (λ known. known ≢ name.now) (names_of self.old) }
        requires valid { IsValid (with_row self.old (observation name.now row)) }
        ensures ok { OnOk result (self.new ≡ with_row self.old (observation name.now row)) }
        ensures err { OnErr result (self.new ≡ self.old) }
    {
        let place = self.names.count();
        self.entries.push(Entry { place, row })?;
        if let Err(full) = self.groups.add_group(row) {
            self.entries.pop();
            return Err(full);
        }
        match self.names.add(name) {
            Ok(()) => {
                self.weight += row.weight;
                Ok(())
            }
            Err(full) => {
                self.entries.pop();
                self.groups.remove_last();
                Err(full)
            }
        }
    }

    /// The study without its rows and pairs. It takes no memory.
    pub(crate) fn emptied(&self) -> Study
        ensures { result ≡ record self.now { rows = []; pairs = [] } }
    {
        Study::empty(self.allocator(), self.settings)
    }

    /// Puts pairs of places, by the bytes of the low name, then of the high name, in place of the
    /// study's own.
    pub(crate) fn set_pairs(&mut self, pairs: Vec<(u32, u32)>) -> Result<(), AllocError>
        requires within { All (λ e. (e.0 < length (names_of self.old)) × (e.1 < length (names_of self.old))) pairs.items }
        requires in_order { AllPairs ComesBefore (map (named (names_of self.old)) pairs.items) }
        requires few { length pairs.items ≤ most_pairs }
        ensures { OnOk result (self.new ≡ record self.old { pairs = map (named (names_of self.old)) pairs.items }) }
    {
        let made = Pairs::make(self.allocator(), pairs, self.names.count())?;
        self.pairs = made;
        Ok(())
    }

    pub(crate) fn allocator(&self) -> Global {
        *self.entries.allocator()
    }

    /// The pairs by the places of their groups, in the order of the pairs.
    pub(crate) fn pairs(&self) -> &[(u32, u32)]
        ensures { result.now ≡ places_of self.now }
    {
        self.pairs.as_slice()
    }

    /// The loss, the decimal places and the bounds of the fit.
    pub fn settings(&self) -> &Settings
        ensures settings { result.now ≡ self.now.settings }
        ensures limits { InLimits result.now }
    {
        &self.settings
    }

    /// The least and the greatest value that the fit may give the group at a place, each where there
    /// is one.
    pub fn bounds_of(&self, place: u32) -> (Option<i64>, Option<i64>)
        ensures lo { result.0 ≡ (bounds_of self.now place).lo }
        ensures hi { result.1 ≡ (bounds_of self.now place).hi }
        ensures limits { IsBoundInLimits result.0 × IsBoundInLimits result.1 }
    {
        (self.settings.lo, self.settings.hi)
    }

    /// Says that the study keeps its limits, and does nothing.
    pub fn keeps_limits(&self)
        ensures valid { IsValid self.now }
    {
        let _weight = self.weight;
    }

    /// The number of groups, at most 2,000.
    pub fn group_count(&self) -> u32
        ensures count { result ≡ length (names_of self.now) }
        ensures valid { IsValid self.now }
    {
        self.names.count()
    }

    /// The number of rows, at most 100,000.
    pub fn row_count(&self) -> u32
        ensures count { result ≡ length self.now.rows }
        ensures valid { IsValid self.now }
    {
        self.entries.len() as u32
    }

    /// The number of pairs, at most 20,000.
    pub fn pair_count(&self) -> u32
        ensures count { result ≡ length self.now.pairs }
        ensures valid { IsValid self.now }
    {
        self.pairs.count()
    }

    /// The sum of the weights of all rows, at most 10^10.
    pub fn total_weight(&self) -> u64
        ensures { result ≡ total_weight self.now.rows }
    {
        self.weight
    }

    /// The bytes of a group's name.
    pub fn group_name(&self, place: u32) -> &[u8]
        requires { place < length (names_of self.now) }
        ensures { slice_get (names_of self.now) place ≡ Some result.now }
    {
        self.names.at(place)
    }

    /// The rows of a group, by rising number.
    pub fn rows_of(&self, place: u32) -> &[Row]
        requires { place < length (names_of self.now) }
        ensures { slice_get (groups_of self.now) place ≡ Some result.now }
    {
        self.groups.at(place)
    }

    /// The place of the group with a name, in expected constant time. None where no group has it.
    pub fn place_of(&self, name: &[u8]) -> Option<u32>
        ensures { MatchOption result (All (λ known. known ≢ name.now) (names_of self.now))
            (λ place. slice_get (names_of self.now) place ≡ Some name.now) }
    {
        self.names.place_of(name)
    }

    /// The places of the low and the high group of a pair, in the order of the pairs: by the bytes of
    /// the low name, then of the high name.
    pub fn pair_at(&self, index: u32) -> (u32, u32)
        requires { index < length self.now.pairs }
        ensures { slice_get (places_of self.now) index ≡ Some result }
    {
        let pairs = self.pairs.as_slice();
        pairs[index as usize]
    }

    /// The index of the pair of these places. None where they aren't a pair. O(log m) comparisons of
    /// names for m pairs.
    pub fn pair_index(&self, low: u32, high: u32) -> Option<u32>
        ensures { MatchOption result (Contains (places_of self.now) (low, high) → ⊥)
            (λ index. slice_get (places_of self.now) index ≡ Some (low, high)) }
    {
        index_of(&self.names, self.pairs.as_slice(), (low, high))
    }

    /// Which of two pairs of the study, told by their places, comes first in the order of the pairs.
    pub fn compare_pairs(&self, first: (u32, u32), second: (u32, u32)) -> Ordering
        requires first { Contains (places_of self.now) first }
        requires second { Contains (places_of self.now) second }
        ensures { (i j : ℕ) → slice_get (places_of self.now) i ≡ Some first
            → slice_get (places_of self.now) j ≡ Some second → result ≡ nat_cmp i j }
    {
        self.names.compare_pairs(first, second)
    }

    /// The indexes of the pairs that have a group at an end, in rising order.
    pub fn pairs_at(&self, place: u32) -> &[u32]
        ensures { result.now ≡ indexes_at (places_of self.now) place }
    {
        self.pairs.at_end(place)
    }

    /// The study once more. Linear time and memory.
    pub fn copy(&self) -> Result<Study, AllocError>
        ensures { IfOk result (λ study. study ≡ self.now) }
    {
        let alloc = self.allocator();
        Ok(Study {
            settings: self.settings,
            names: self.names.copy()?,
            entries: Vec::from_slice(alloc, self.entries.as_slice())?,
            groups: self.groups.copy()?,
            pairs: self.pairs.copy()?,
            weight: self.weight,
        })
    }

    /// The study with these pairs of places in place of its own, equal ones once. Linear time and
    /// memory, and O(m log m) comparisons of names for m pairs.
    pub fn with_pairs(&self, pairs: &[(u32, u32)]) -> Result<Study, AllocError>
        requires places { All (λ e. (e.0 < length (names_of self.now)) × (e.1 < length (names_of self.now))) pairs.now }
        requires few { length pairs.now ≤ most_pairs }
        ensures { IfOk result (λ study. HasPairs self.now pairs.now study) }
    {
        let ordered = ordered_pairs(self.allocator(), &self.names, pairs)?;
        let mut study = self.copy()?;
        study.set_pairs(ordered)?;
        Ok(study)
    }

    /// The order of the study's groups by its pairs. O((n + m) log n) time and linear memory for n
    /// groups and m pairs.
    pub fn order(&self, alloc: Global) -> Result<Order, AllocError>
        ensures places { IfOk result (λ order. order.places ≡ length (names_of self.now)) }
        ensures in_order { IfOk result (λ order. AreInOrder order.pairs) }
        ensures same { IfOk result (λ order. (e : ℕ × ℕ) → Contains order.pairs e ↔ Contains (places_of self.now) e) }
    {
        check_order(alloc, self.pairs.as_slice(), self.names.count())
    }
}
