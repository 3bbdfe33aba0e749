ghost use Rattle.std.specs.Prelude.{◌<◌, AllPairs};
ghost use Rattle.ofit_study.specs.Splice.{IsCut};

use crate::list::spliced;
use ofit_num::Row;
use std::alloc::{AllocError, Global};
use std::marker::Model;
use std::mem;

/// How many rows have a number below this one. O(log n) time for n rows.
fn rows_below(rows: &[Row], number: u32) -> usize
    requires { AllPairs (λ q r. q.number < r.number) rows.now }
    ensures { IsCut (λ r. r.number) rows.now number result }
{
    rows.partition_point(|row| row.number < number)
}

/// The rows of each group, groups by their places. A row is put after those of its group in constant
/// amortised time.
#[derive(Drop)]
pub(crate) struct GroupRows {
    lists: Vec<Vec<Row>>,
}

impl Model for GroupRows {
    ghost use Rattle.std.specs.Prelude.{map};
    ghost use Rattle.ofit_num.specs.Groups.{RowLists};

    ghost Value = { RowLists };

    ghost view = { λ g. map (λ rows. rows.items) g.lists.items };
}

impl GroupRows {
    ghost use Rattle.ofit_study.specs.Splice.{IsSpliced};
    ghost use Rattle.std.specs.Prelude.{◌≡◌, ◌≤◌, ◌<◌, ◌-◌, [], ◌∷◌, ◌++◌, length, take, AllPairs, IfOk, OnOk, OnErr, slice_get, slice_set, slice_index_or, Some};

    /// No groups. It takes no memory.
    pub(crate) fn new(alloc: Global) -> GroupRows
        ensures { result ≡ [] }
    {
        GroupRows {
            lists: Vec::new(alloc),
        }
    }

    /// The rows of the group at a place.
    pub(crate) fn at(&self, place: u32) -> &[Row]
        requires { place < length self.now }
        ensures { slice_get self.now place ≡ Some result.now }
    {
        self.lists[place as usize].as_slice()
    }

    /// Puts a row after those of the group at a place.
    pub(crate) fn add_row(&mut self, place: u32, row: Row) -> Result<(), AllocError>
        requires { place < length self.old }
        ensures ok { OnOk result (self.new ≡ slice_set self.old place (slice_index_or self.old place [] ++ row ∷ [])) }
        ensures err { OnErr result (self.new ≡ self.old) }
    {
        let rows = &mut self.lists[place as usize];
        rows.push(row)?;
        Ok(())
    }

    /// Puts a group of one row after the others.
    pub(crate) fn add_group(&mut self, row: Row) -> Result<(), AllocError>
        ensures ok { OnOk result (self.new ≡ self.old ++ (row ∷ []) ∷ []) }
        ensures err { OnErr result (self.new ≡ self.old) }
    {
        let alloc = *self.lists.allocator();
        let rows = Vec::from_slice(alloc, &[row])?;
        self.lists.push(rows)?;
        Ok(())
    }

    /// Puts rows in place of those of the group at a place, which come in their place.
    pub(crate) fn exchange(&mut self, place: u32, rows: &mut Vec<Row>)
        requires { place < length self.old }
        ensures put { self.new ≡ slice_set self.old place rows.old.items }
        ensures left { slice_get self.old place ≡ Some rows.new.items }
    {
        mem::swap(&mut self.lists[place as usize], rows);
    }

    /// The rows of the group at a place with `taken` of those from the number on taken out, and others
    /// put in their place. Linear time and memory.
    pub(crate) fn spliced(
        &self,
        place: u32,
        number: u32,
        taken: usize,
        put: &[Row],
    ) -> Result<Vec<Row>, AllocError>
        requires place { place < length self.now }
        requires rising { AllPairs (λ q r. q.number < r.number) (slice_index_or self.now place []) }
        requires taken { taken ≤ 1 }
        requires few { length put.now ≤ 1 }
        ensures { IfOk result (λ rows. IsSpliced (slice_index_or self.now place []) number taken put.now rows.items) }
    {
        let rows = self.at(place);
        let start = rows_below(rows, number);
        let end = rows.len().min(start + taken);
        spliced(*self.lists.allocator(), rows, start, end, put)
    }

    /// Takes the last group away.
    pub(crate) fn remove_last(&mut self)
        ensures { self.new ≡ take (length self.old - 1) self.old }
    {
        let _last = self.lists.pop();
    }

    /// The rows of the groups once more.
    pub(crate) fn copy(&self) -> Result<GroupRows, AllocError>
        ensures { IfOk result (λ groups. groups ≡ self.now) }
    {
        let lists = self.lists.clone()?;
        Ok(GroupRows { lists })
    }
}
