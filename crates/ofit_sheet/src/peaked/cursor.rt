ghost use Rattle.std.specs.Prelude.{◌≡◌, ◌<◌, ◌+◌, ◌^◌, ◌∷◌, [], length, pos};
ghost use Rattle.csv.specs.Records.{fields_of};
ghost use Rattle.ofit_num.specs.declared.limits.TheConstants.{MOST_GROUPS};
ghost use Rattle.ofit_study.specs.Study.{names_of};
ghost use Rattle.ofit_sheet.specs.Slots.{peak_slot, value_slot, side_slot, step_slot, last_slot, end_slot};
ghost use Rattle.ofit_sheet.specs.PeakedRead.{peak_item, value_item, side_item, step_item, end_item};
ghost use Rattle.ofit_sheet.specs.PeakedSteps.{Advances, PartRead, fault_of};

use crate::fault::{RecordFault, SheetFault};
use crate::peaked::record::{end_of, last_step_of, peak_of, side_header_of, step_of, value_of};
use crate::peaked::slope::Slope;
use csv::ByteRecord;
use ofit_records::Records;
use ofit_study::Study;

/// The records to come, the last one that was read, and its number.
pub(crate) struct Cursor<'a> {
    /// The records to come.
    pub(crate) records: Records<'a>,
    /// The last record that was read.
    pub(crate) row: ByteRecord,
    /// Its number, and 0 before the first one.
    pub(crate) number: u32,
}

/// Written out, so that a proof meets one call where a value is let go.
impl Drop for Cursor<'_> {
    fn drop(self) {
        let Cursor {
            records,
            row,
            number: _,
        } = self;
        drop(records);
        drop(row);
    }
}

/// What a fault of the record of this number is to a sheet.
fn fault_at(fault: RecordFault, number: u32) -> SheetFault
    ensures { result ≡ fault_of number fault }
{
    match fault {
        RecordFault::Bad => SheetFault::BadRecord(number),
        RecordFault::TooLarge => SheetFault::NumberTooLarge(number),
    }
}

/// Goes on to the next record.
pub(crate) fn advance(cursor: &mut Cursor<'_>) -> Result<(), SheetFault>
    requires { cursor.old.number + length cursor.old.records < 2 ^ 32 }
    ensures { Advances cursor.old.number cursor.old.records (fields_of cursor.new.row) cursor.new.number cursor.new.records result }
{
    match cursor.records.read_next(&mut cursor.row) {
        Err(_) => Err(SheetFault::Memory),
        Ok(false) => Err(SheetFault::NoEnd),
        Ok(true) => {
            cursor.number += 1;
            Ok(())
        }
    }
}

/// The record of the peak.
pub(crate) fn take_peak(
    cursor: &mut Cursor<'_>,
    study: &Study,
) -> Result<(Option<u32>, u128), SheetFault>
    requires { cursor.old.number + length cursor.old.records < 2 ^ 32 }
    ensures { PartRead (names_of study.now) (peak_slot ∷ []) (λ p. peak_item p.0 p.1 ∷ []) cursor.old.number cursor.old.records cursor.new.number cursor.new.records result }
{
    advance(cursor)?;
    match peak_of(study, &cursor.row) {
        Ok(peak) => Ok(peak),
        Err(fault) => Err(fault_at(fault, cursor.number)),
    }
}

/// The record of the value of the group at a place.
pub(crate) fn take_value(
    cursor: &mut Cursor<'_>,
    study: &Study,
    place: u32,
) -> Result<i64, SheetFault>
    requires room { cursor.old.number + length cursor.old.records < 2 ^ 32 }
    requires place { place < length (names_of study.now) }
    ensures { PartRead (names_of study.now) (value_slot place ∷ []) (λ v. value_item v ∷ []) cursor.old.number cursor.old.records cursor.new.number cursor.new.records result }
{
    advance(cursor)?;
    match value_of(study, place, &cursor.row) {
        Ok(value) => Ok(value),
        Err(fault) => Err(fault_at(fault, cursor.number)),
    }
}

/// The record of a step of the group at a place.
pub(crate) fn take_step(
    cursor: &mut Cursor<'_>,
    study: &Study,
    place: u32,
) -> Result<(i64, i128), SheetFault>
    requires room { cursor.old.number + length cursor.old.records < 2 ^ 32 }
    requires place { place < length (names_of study.now) }
    ensures { PartRead (names_of study.now) (step_slot place ∷ []) (λ s. step_item s.0 s.1 ∷ []) cursor.old.number cursor.old.records cursor.new.number cursor.new.records result }
{
    advance(cursor)?;
    match step_of(study, place, &cursor.row) {
        Ok(step) => Ok(step),
        Err(fault) => Err(fault_at(fault, cursor.number)),
    }
}

/// The record of the last step of a side, which is of the group at a place.
pub(crate) fn take_last_step(
    cursor: &mut Cursor<'_>,
    study: &Study,
    place: u32,
) -> Result<i64, SheetFault>
    requires room { cursor.old.number + length cursor.old.records < 2 ^ 32 }
    requires place { place < length (names_of study.now) }
    ensures { PartRead (names_of study.now) (last_slot place ∷ []) (λ v. step_item v (pos 0) ∷ []) cursor.old.number cursor.old.records cursor.new.number cursor.new.records result }
{
    advance(cursor)?;
    match last_step_of(study, place, &cursor.row) {
        Ok(value) => Ok(value),
        Err(fault) => Err(fault_at(fault, cursor.number)),
    }
}

/// The record before the steps of the side of this index.
pub(crate) fn take_side_header(
    cursor: &mut Cursor<'_>,
    study: &Study,
    slope: Slope,
    index: u32,
) -> Result<(), SheetFault>
    requires room { cursor.old.number + length cursor.old.records < 2 ^ 32 }
    requires index { index < MOST_GROUPS }
    ensures { PartRead (names_of study.now) (side_slot slope index ∷ []) (λ u. side_item ∷ []) cursor.old.number cursor.old.records cursor.new.number cursor.new.records result }
{
    advance(cursor)?;
    match side_header_of(study, slope, index, &cursor.row) {
        Ok(()) => Ok(()),
        Err(fault) => Err(fault_at(fault, cursor.number)),
    }
}

/// The end.
pub(crate) fn take_end(cursor: &mut Cursor<'_>, study: &Study) -> Result<(), SheetFault>
    requires { cursor.old.number + length cursor.old.records < 2 ^ 32 }
    ensures { PartRead (names_of study.now) (end_slot ∷ []) (λ u. end_item ∷ []) cursor.old.number cursor.old.records cursor.new.number cursor.new.records result }
{
    advance(cursor)?;
    match end_of(study, &cursor.row) {
        Ok(()) => Ok(()),
        Err(fault) => Err(fault_at(fault, cursor.number)),
    }
}
