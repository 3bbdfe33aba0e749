ghost use Rattle.std.specs.Prelude.{◌≡◌, ◌↔◌, ◌<◌, ◌∷◌, [], ℕ, List, IsTrue, MatchOption, Some, length, pos};
ghost use Rattle.csv.specs.Records.{fields_of};
ghost use Rattle.ofit_num.specs.declared.limits.TheConstants.{MOST_GROUPS};
ghost use Rattle.ofit_study.specs.Study.{names_of};
ghost use Rattle.ofit_sheet.specs.Slots.{peak_slot, value_slot, side_slot, step_slot, last_slot, end_slot};
ghost use Rattle.ofit_sheet.specs.PeakedRead.{peak_item, value_item, side_item, step_item, end_item, IsPeakedHeader};
ghost use Rattle.ofit_sheet.specs.PeakedSteps.{SlotRead};

use crate::fault::RecordFault;
use crate::fields::four_of;
use crate::numeral::{both, is, read_count, read_number};
use crate::peaked::limits::MOST_COST;
use crate::peaked::slope::Slope;
use csv::ByteRecord;
use itoa::Buffer;
use ofit_num::{MOST_AMOUNT, MOST_UNITS};
use ofit_study::{LossKind, Study};

/// The decimal places that a header tells.
pub(crate) fn places_of(row: &ByteRecord) -> Option<u32>
    ensures { MatchOption result ((places : ℕ) → IsPeakedHeader (fields_of row.now) places → ⊥) (λ places. IsPeakedHeader (fields_of row.now) places) }
{
    let Some(fields) = four_of(row) else {
        return None;
    };
    if !is(fields.kind, b"ofit-peaked")
        || !is(fields.first, b"1")
        || !is(fields.second, LossKind::Median.name())
    {
        return None;
    }
    match read_count(fields.third, 6) {
        Ok(places) => Some(places as u32),
        Err(_) => None,
    }
}

/// Whether a record has these four fields.
fn has_fields(row: &ByteRecord, kind: &[u8], first: &[u8], second: &[u8], third: &[u8]) -> bool
    ensures { IsTrue result ↔ (fields_of row.now ≡ kind.now ∷ first.now ∷ second.now ∷ third.now ∷ []) }
{
    match four_of(row) {
        None => false,
        Some(fields) => {
            is(fields.kind, kind)
                && is(fields.first, first)
                && is(fields.second, second)
                && is(fields.third, third)
        }
    }
}

/// The two fields behind the kind and the name of the group at a place.
fn behind_name<'a>(row: &'a ByteRecord, kind: &[u8], name: &[u8]) -> Option<(&'a [u8], &'a [u8])>
    ensures { MatchOption result ((second third : List ℕ) → fields_of row.now ≡ kind.now ∷ name.now ∷ second ∷ third ∷ [] → ⊥)
        (λ p. fields_of row.now ≡ kind.now ∷ name.now ∷ p.0.now ∷ p.1.now ∷ []) }
{
    let Some(fields) = four_of(row) else {
        return None;
    };
    if is(fields.kind, kind) && is(fields.first, name) {
        Some((fields.second, fields.third))
    } else {
        None
    }
}

/// That there is no peak, and nothing costs anything.
fn no_peak(study: &Study, row: &ByteRecord) -> Result<(Option<u32>, u128), RecordFault>
    requires { length (names_of study.now) ≡ 0 }
    ensures { SlotRead (names_of study.now) peak_slot (fields_of row.now) (λ p. peak_item p.0 p.1) result }
{
    study.keeps_limits();
    if has_fields(row, b"peak", b"-", b"0", b"-") {
        Ok((None, 0))
    } else {
        Err(RecordFault::Bad)
    }
}

/// The place of the peak, and the cost.
fn peak_at(study: &Study, row: &ByteRecord) -> Result<(Option<u32>, u128), RecordFault>
    requires { 0 < length (names_of study.now) }
    ensures { SlotRead (names_of study.now) peak_slot (fields_of row.now) (λ p. peak_item p.0 p.1) result }
{
    let Some(fields) = four_of(row) else {
        return Err(RecordFault::Bad);
    };
    if !is(fields.kind, b"peak") || !is(fields.third, b"-") {
        return Err(RecordFault::Bad);
    }
    let Some(place) = study.place_of(fields.first) else {
        return Err(RecordFault::Bad);
    };
    match read_count(fields.second, MOST_COST) {
        Ok(cost) => Ok((Some(place), cost)),
        Err(fault) => Err(fault),
    }
}

/// The place of the peak, where there are groups, and the cost.
pub(crate) fn peak_of(study: &Study, row: &ByteRecord) -> Result<(Option<u32>, u128), RecordFault>
    ensures { SlotRead (names_of study.now) peak_slot (fields_of row.now) (λ p. peak_item p.0 p.1) result }
{
    if study.group_count() == 0 {
        no_peak(study, row)
    } else {
        peak_at(study, row)
    }
}

/// The value of the group at a place.
pub(crate) fn value_of(study: &Study, place: u32, row: &ByteRecord) -> Result<i64, RecordFault>
    requires { place < length (names_of study.now) }
    ensures { SlotRead (names_of study.now) (value_slot place) (fields_of row.now) value_item result }
{
    let Some((text, last)) = behind_name(row, b"value", study.group_name(place)) else {
        return Err(RecordFault::Bad);
    };
    if !is(last, b"-") {
        return Err(RecordFault::Bad);
    }
    match read_number(text, MOST_UNITS as u128) {
        Ok(value) => Ok(value as i64),
        Err(fault) => Err(fault),
    }
}

/// The value and the amount of a step of the group at a place.
pub(crate) fn step_of(
    study: &Study,
    place: u32,
    row: &ByteRecord,
) -> Result<(i64, i128), RecordFault>
    requires { place < length (names_of study.now) }
    ensures { SlotRead (names_of study.now) (step_slot place) (fields_of row.now) (λ s. step_item s.0 s.1) result }
{
    let Some((text, size)) = behind_name(row, b"step", study.group_name(place)) else {
        return Err(RecordFault::Bad);
    };
    match both(
        read_number(text, MOST_UNITS as u128),
        read_count(size, MOST_AMOUNT),
    ) {
        Ok((value, amount)) => Ok((value as i64, amount as i128)),
        Err(fault) => Err(fault),
    }
}

/// The value of the last step of a side, which is of the group at a place.
pub(crate) fn last_step_of(study: &Study, place: u32, row: &ByteRecord) -> Result<i64, RecordFault>
    requires { place < length (names_of study.now) }
    ensures { SlotRead (names_of study.now) (last_slot place) (fields_of row.now) (λ v. step_item v (pos 0)) result }
{
    let Some((text, size)) = behind_name(row, b"step", study.group_name(place)) else {
        return Err(RecordFault::Bad);
    };
    if !is(size, b"0") {
        return Err(RecordFault::Bad);
    }
    match read_number(text, MOST_UNITS as u128) {
        Ok(value) => Ok(value as i64),
        Err(fault) => Err(fault),
    }
}

/// That the side of this index begins.
pub(crate) fn side_header_of(
    study: &Study,
    slope: Slope,
    index: u32,
    row: &ByteRecord,
) -> Result<(), RecordFault>
    requires { index < MOST_GROUPS }
    ensures { SlotRead (names_of study.now) (side_slot slope index) (fields_of row.now) (λ u. side_item) result }
{
    let _study = study;
    let mut buffer = Buffer::new();
    let number = buffer.format(slope.number(index)).as_bytes();
    if has_fields(row, slope.name(), number, b"-", b"-") {
        Ok(())
    } else {
        Err(RecordFault::Bad)
    }
}

/// That the sheet ends.
pub(crate) fn end_of(study: &Study, row: &ByteRecord) -> Result<(), RecordFault>
    ensures { SlotRead (names_of study.now) end_slot (fields_of row.now) (λ u. end_item) result }
{
    let _study = study;
    if has_fields(row, b"end", b"-", b"-", b"-") {
        Ok(())
    } else {
        Err(RecordFault::Bad)
    }
}
