use crate::entry::Entry;
use crate::list::spliced;
use crate::study::Study;
use crate::study::change::{OtherEntries, RowChange};
use ofit_num::Row;
use std::alloc::AllocError;

impl Study {
    ghost use Rattle.std.specs.Prelude.{◌≡◌, ◌≤◌, ◌<◌, ◌+◌, [], ◌∷◌, ◌++◌, All, Contains, IfOk, Some, length, take, drop, slice_get};
    ghost use Rattle.ofit_study.specs.Added.{observation};
    ghost use Rattle.ofit_study.specs.Change.{IsChangeOf, changed};
    ghost use Rattle.ofit_study.specs.Kept.{name_at};
    ghost use Rattle.ofit_study.specs.Put.{PutsAt};
    ghost use Rattle.ofit_study.specs.Study.{Observation, IsValid, group_names, names_of};

    /// The change that puts a row in place of the one at an index, whose number and group it has. Linear
    /// time and memory in the rows of the group.
    pub(crate) fn other_row(&self, index: usize, row: Row) -> Result<RowChange, AllocError>
        requires inside { index < length self.now.rows }
        requires same { (r : Observation) → slice_get self.now.rows index ≡ Some r → r.number ≡ row.number }
        requires valid { (r : Observation) → slice_get self.now.rows index ≡ Some r
            → IsValid (record self.now { rows = take index self.now.rows ++ observation r.group row ∷ drop (index + 1) self.now.rows }) }
        ensures { IfOk result (PutsAt self.now index (row ∷ [])) }
    {
        let entry = self.entries[index];
        let rows = self.groups.spliced(entry.place, row.number, 1, &[row])?;
        let weight = self.weight - entry.row.weight + row.weight;
        let place = entry.place;
        let entries = OtherEntries::One(index, Entry { place, row });
        Ok(RowChange::make(place, entries, rows, weight))
    }

    /// The change that takes the row at an index away, of a group that has a row before it. Linear time
    /// and memory.
    pub(crate) fn less_row(&self, index: usize) -> Result<RowChange, AllocError>
        requires inside { index < length self.now.rows }
        requires before { (r : Observation) → slice_get self.now.rows index ≡ Some r → Contains (group_names (take index self.now.rows)) r.group }
        requires valid { IsValid (record self.now { rows = take index self.now.rows ++ drop (index + 1) self.now.rows }) }
        ensures { IfOk result (PutsAt self.now index []) }
    {
        let entry = self.entries[index];
        let rows = self.groups.spliced(entry.place, entry.row.number, 1, &[])?;
        let others = spliced(
            self.allocator(),
            self.entries.as_slice(),
            index,
            index + 1,
            &[],
        )?;
        let weight = self.weight - entry.row.weight;
        Ok(RowChange::make(entry.place, OtherEntries::All(others), rows, weight))
    }

    /// The change that puts a row before the one at an index, into the group at a place, which has a row
    /// before it. Linear time and memory.
    pub(crate) fn more_row(
        &self,
        index: usize,
        place: u32,
        row: Row,
    ) -> Result<RowChange, AllocError>
        requires inside { index ≤ length self.now.rows }
        requires place { place < length (names_of self.now) }
        requires below { All (λ q. q.number < row.number) (take index self.now.rows) }
        requires above { All (λ q. row.number < q.number) (drop index self.now.rows) }
        requires before { Contains (group_names (take index self.now.rows)) (name_at (names_of self.now) place) }
        requires valid { IsValid (record self.now { rows = take index self.now.rows ++ observation (name_at (names_of self.now) place) row ∷ drop index self.now.rows }) }
        ensures change { IfOk result (IsChangeOf self.now) }
        ensures after { IfOk result (λ c. changed self.now c ≡ record self.now { rows = take index self.now.rows ++ observation (name_at (names_of self.now) place) row ∷ drop index self.now.rows }) }
        ensures group { IfOk result (λ c. c.place ≡ place) }
    {
        let rows = self.groups.spliced(place, row.number, 0, &[row])?;
        let entry = Entry { place, row };
        let others = spliced(
            self.allocator(),
            self.entries.as_slice(),
            index,
            index,
            &[entry],
        )?;
        let weight = self.weight + row.weight;
        Ok(RowChange::make(place, OtherEntries::All(others), rows, weight))
    }
}
