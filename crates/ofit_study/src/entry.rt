ghost use Rattle.std.specs.Prelude.{◌≢◌, ◌<◌, All, MatchOption};
ghost use Rattle.ofit_study.specs.Splice.{IsGapAmong, IsEntryAt, RiseFromOne, IsCut};

use ofit_num::Row;

/// A row, with the place of its group.
#[derive(Clone, Copy)]
pub(crate) struct Entry {
    pub(crate) place: u32,
    pub(crate) row: Row,
}

/// How many rows have the numbers from 1 on, in this order. Constant time where all have, and else
/// O(log n) for n rows.
pub(crate) fn gap_among(entries: &[Entry]) -> usize
    requires { RiseFromOne entries.now }
    ensures { IsGapAmong entries.now result }
{
    let count = entries.len();
    if count == 0 || entries[count - 1].row.number as usize == count {
        return count;
    }
    let mut start = 0;
    let mut end = count;
    while start < end {
        let middle = start + (end - start) / 2;
        if entries[middle].row.number as usize == middle + 1 {
            start = middle + 1;
        } else {
            end = middle;
        }
    }
    start
}

/// How many rows have a number below this one. O(log n) time for n rows.
fn entries_below(entries: &[Entry], number: u32) -> usize
    requires { RiseFromOne entries.now }
    ensures { IsCut (λ e. e.row.number) entries.now number result }
{
    entries.partition_point(|entry| entry.row.number < number)
}

/// The index of the row of a number. O(log n) time for n rows.
pub(crate) fn index_of_number(entries: &[Entry], number: u32) -> Option<usize>
    requires { RiseFromOne entries.now }
    ensures { MatchOption result (All (λ e. e.row.number ≢ number) entries.now)
        (λ index. IsEntryAt entries.now index number) }
{
    let index = entries_below(entries, number);
    if index < entries.len() && entries[index].row.number == number {
        Some(index)
    } else {
        None
    }
}
