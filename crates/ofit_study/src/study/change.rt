use crate::entry::Entry;
use crate::study::Study;
use ofit_num::Row;
use std::marker::Model;
use std::mem;

/// Rows with the places of their groups: one that stands at an index, or all.
#[derive(Drop)]
pub(crate) enum OtherEntries {
    One(usize, Entry),
    All(Vec<Entry>),
}

impl OtherEntries {
    ghost use Rattle.std.specs.Prelude.{◌≡◌};
    ghost use Rattle.ofit_study.specs.Told.{told, AreInside, entries_left, entries_with};

    /// Puts them in place of those that stand, which come in their place.
    fn exchange(&mut self, entries: &mut Vec<Entry>)
        requires { AreInside entries.old.items (told self.old) }
        ensures put { entries.new.items ≡ entries_with entries.old.items (told self.old) }
        ensures left { told self.new ≡ entries_left entries.old.items (told self.old) }
    {
        match self {
            OtherEntries::One(index, entry) => {
                let stood = entries[*index];
                entries[*index] = *entry;
                *entry = stood;
            }
            OtherEntries::All(others) => mem::swap(entries, others),
        }
    }
}

/// A change of one row of a study, that moves no group and no pair. Once it is exchanged, it holds what
/// the study had, so that a second exchange takes it back.
#[derive(Drop)]
pub struct RowChange {
    place: u32,
    entries: OtherEntries,
    rows: Vec<Row>,
    weight: u64,
}

impl Model for RowChange {
    ghost use Rattle.ofit_study.specs.Change.{Change};
    ghost use Rattle.ofit_study.specs.Told.{told};

    ghost Value = { Change };

    ghost view = { λ c. record { place = c.place; entries = told c.entries; rows = c.rows.items; weight = c.weight } };
}

impl RowChange {
    ghost use Rattle.std.specs.Prelude.{◌≡◌};
    ghost use Rattle.ofit_study.specs.Told.{told};

    /// The change of a row of the group at a place, to these entries, these rows of the group and this
    /// total weight.
    pub(super) fn make(place: u32, entries: OtherEntries, rows: Vec<Row>, weight: u64) -> RowChange
        ensures { result ≡ record { place = place; entries = told entries; rows = rows.items; weight = weight } }
    {
        RowChange {
            place,
            entries,
            rows,
            weight,
        }
    }

    /// The place of the row's group.
    pub fn place(&self) -> u32
        ensures { result ≡ self.now.place }
    {
        self.place
    }
}

impl Study {
    ghost use Rattle.std.specs.Prelude.{◌≡◌};
    ghost use Rattle.ofit_study.specs.Change.{IsChangeOf, changed};

    /// Puts a change into the study, and what stood there into the change: a second exchange gives the
    /// study back. Constant time.
    pub fn exchange(&mut self, change: &mut RowChange)
        requires { IsChangeOf self.old change.old }
        ensures put { self.new ≡ changed self.old change.old }
        ensures left { IsChangeOf self.new change.new }
        ensures back { changed self.new change.new ≡ self.old }
        ensures place { change.new.place ≡ change.old.place }
    {
        change.entries.exchange(&mut self.entries);
        self.groups.exchange(change.place, &mut change.rows);
        mem::swap(&mut self.weight, &mut change.weight);
    }
}
