ghost use Rattle.std.specs.Prelude.{◌≡◌, ◌<◌, ◌≤◌, ◌+◌, ◌^◌, ◌≤ℤ◌, IfOk, All, length, map, pos, suc, vec_len};
ghost use Rattle.std.specs.List.{flat_map, range_with_len};
ghost use Rattle.ofit_num.specs.declared.limits.TheConstants.{LONGEST_FILE};
ghost use Rattle.ofit_records.specs.Records.{records_of};
ghost use Rattle.ofit_study.specs.Study.{names_of};
ghost use Rattle.ofit_sheet.specs.declared.peaked.limits.TheConstants.{MOST_PEAK_GROUPS};
ghost use Rattle.ofit_sheet.specs.Peaked.{IsShaped, IsSide};
ghost use Rattle.ofit_sheet.specs.Slots.{step_slot, value_slots, step_slots, side_slots, sides_slots, steps_before_last, slots};
ghost use Rattle.ofit_sheet.specs.PeakedRead.{step_told, value_item, side_items, items_of, PeakedRead};
ghost use Rattle.ofit_sheet.specs.PeakedSteps.{PartRead, PlacesRead, HasSides};

use crate::fault::SheetFault;
use crate::peaked::cursor::{
    Cursor, advance, take_end, take_last_step, take_peak, take_side_header, take_step, take_value,
};
use crate::peaked::record::places_of;
use crate::peaked::sheet::Peaked;
use crate::peaked::side::Side;
use crate::peaked::slope::Slope;
use csv::ByteRecord;
use ofit_records::Records;
use ofit_study::Study;
use std::alloc::Global;

/// The values in the order of the groups.
fn read_values(
    alloc: Global,
    cursor: &mut Cursor<'_>,
    study: &Study,
) -> Result<Vec<i64>, SheetFault>
    requires { cursor.old.number + length cursor.old.records < 2 ^ 32 }
    ensures read { PartRead (names_of study.now) (value_slots (length (names_of study.now))) (λ v. map value_item v.items) cursor.old.number cursor.old.records cursor.new.number cursor.new.records result }
    ensures count { IfOk result (λ v. vec_len v ≡ length (names_of study.now)) }
{
    let mut values = Vec::new(alloc);
    for place in 0..study.group_count() {
        let value = take_value(cursor, study, place)?;
        match values.push(value) {
            Ok(()) => {}
            Err(_) => return Err(SheetFault::Memory),
        }
    }
    Ok(values)
}

/// The steps of a side before its last one, so many from a place on.
fn read_first_steps(
    alloc: Global,
    cursor: &mut Cursor<'_>,
    study: &Study,
    start: u32,
    count: u32,
) -> Result<Vec<(i64, i128)>, SheetFault>
    requires room { cursor.old.number + length cursor.old.records < 2 ^ 32 }
    requires few { length (names_of study.now) < 2 ^ 32 }
    requires within { start + count < length (names_of study.now) }
    ensures read { PartRead (names_of study.now) (map step_slot (range_with_len start count)) (λ v. map step_told v.items) cursor.old.number cursor.old.records cursor.new.number cursor.new.records result }
    ensures count { IfOk result (λ v. vec_len v ≡ count) }
    ensures amounts { IfOk result (λ v. All (λ step. pos 0 ≤ℤ step.1) v.items) }
{
    let mut steps = Vec::new(alloc);
    for offset in 0..count {
        let step = take_step(cursor, study, start + offset)?;
        match steps.push(step) {
            Ok(()) => {}
            Err(_) => return Err(SheetFault::Memory),
        }
    }
    Ok(steps)
}

/// The steps of a side, so many before its last one, from a place on.
fn read_steps(
    alloc: Global,
    cursor: &mut Cursor<'_>,
    study: &Study,
    start: u32,
    count: u32,
) -> Result<Vec<(i64, i128)>, SheetFault>
    requires room { cursor.old.number + length cursor.old.records < 2 ^ 32 }
    requires few { length (names_of study.now) < 2 ^ 32 }
    requires within { start + count < length (names_of study.now) }
    ensures read { PartRead (names_of study.now) (step_slots start count) (λ v. map step_told v.items) cursor.old.number cursor.old.records cursor.new.number cursor.new.records result }
    ensures side { IfOk result (λ v. IsSide (suc count) v.items) }
{
    let mut steps = read_first_steps(alloc, cursor, study, start, count)?;
    let value = take_last_step(cursor, study, start + count)?;
    match steps.push((value, 0)) {
        Ok(()) => Ok(steps),
        Err(_) => Err(SheetFault::Memory),
    }
}

/// The side of this index.
fn read_side(
    alloc: Global,
    cursor: &mut Cursor<'_>,
    study: &Study,
    slope: Slope,
    index: u32,
) -> Result<Side, SheetFault>
    requires room { cursor.old.number + length cursor.old.records < 2 ^ 32 }
    requires index { index < length (names_of study.now) }
    ensures read { PartRead (names_of study.now) (side_slots slope (length (names_of study.now)) index) side_items cursor.old.number cursor.old.records cursor.new.number cursor.new.records result }
    ensures side { IfOk result (λ side. IsSide (suc (steps_before_last slope (length (names_of study.now)) index)) side) }
{
    let count = slope.steps_before_last(study.group_count(), index);
    take_side_header(cursor, study, slope, index)?;
    let steps = read_steps(alloc, cursor, study, slope.start(index), count)?;
    Ok(Side::make(steps))
}

/// The sides of a slope.
fn read_sides(
    alloc: Global,
    cursor: &mut Cursor<'_>,
    study: &Study,
    slope: Slope,
) -> Result<Vec<Side>, SheetFault>
    requires { cursor.old.number + length cursor.old.records < 2 ^ 32 }
    ensures read { PartRead (names_of study.now) (sides_slots slope (length (names_of study.now))) (λ v. flat_map side_items v.items) cursor.old.number cursor.old.records cursor.new.number cursor.new.records result }
    ensures count { IfOk result (λ v. vec_len v ≡ length (names_of study.now)) }
    ensures sides { IfOk result (λ v. HasSides slope (length (names_of study.now)) v.items) }
{
    let mut sides = Vec::new(alloc);
    for index in 0..study.group_count() {
        let side = read_side(alloc, cursor, study, slope, index)?;
        match sides.push(side) {
            Ok(()) => {}
            Err(_) => return Err(SheetFault::Memory),
        }
    }
    Ok(sides)
}

/// What the records behind the header spell, up to the end.
fn read_parts(
    alloc: Global,
    cursor: &mut Cursor<'_>,
    study: &Study,
    places: u32,
) -> Result<Peaked, SheetFault>
    requires room { cursor.old.number + length cursor.old.records < 2 ^ 32 }
    requires places { places ≤ 6 }
    ensures read { PartRead (names_of study.now) (slots (length (names_of study.now))) items_of cursor.old.number cursor.old.records cursor.new.number cursor.new.records result }
    ensures places { IfOk result (λ x. x.places ≡ places) }
    ensures shaped { IfOk result (IsShaped (length (names_of study.now))) }
{
    let (peak, cost) = take_peak(cursor, study)?;
    let values = read_values(alloc, cursor, study)?;
    let rises = read_sides(alloc, cursor, study, Slope::Rise)?;
    let falls = read_sides(alloc, cursor, study, Slope::Fall)?;
    take_end(cursor, study)?;
    Ok(Peaked::make(places, peak, cost, values, rises, falls))
}

/// Record 1, which is to be the header.
fn read_header(cursor: &mut Cursor<'_>) -> Result<u32, SheetFault>
    requires { cursor.old.number + length cursor.old.records < 2 ^ 32 }
    ensures { PlacesRead cursor.old.number cursor.old.records cursor.new.number cursor.new.records result }
{
    match advance(cursor) {
        Ok(()) => {}
        Err(SheetFault::NoEnd) => return Err(SheetFault::BadHeader),
        Err(fault) => return Err(fault),
    }
    match places_of(&cursor.row) {
        None => Err(SheetFault::BadHeader),
        Some(places) => Ok(places),
    }
}

/// The peaked sheet that records spell.
fn read_records(alloc: Global, cursor: &mut Cursor<'_>, study: &Study) -> Result<Peaked, SheetFault>
    requires start { cursor.old.number ≡ 0 }
    requires room { length cursor.old.records < 2 ^ 32 }
    ensures { PeakedRead (names_of study.now) cursor.old.records result }
{
    let places = read_header(cursor)?;
    let peaked = read_parts(alloc, cursor, study, places)?;
    match advance(cursor) {
        Ok(()) => Err(SheetFault::AfterEnd(cursor.number)),
        Err(SheetFault::NoEnd) => Ok(peaked),
        Err(_) => Err(SheetFault::Memory),
    }
}

/// The peaked sheet that bytes spell, for the study that names the groups, or their first fault.
/// Expected time linear in the bytes, and memory linear in the sheet and its longest record.
pub fn read_peaked(alloc: Global, bytes: &[u8], study: &Study) -> Result<Peaked, SheetFault>
    requires length { length bytes.now ≤ LONGEST_FILE }
    requires few { length (names_of study.now) ≤ MOST_PEAK_GROUPS }
    ensures read { PeakedRead (names_of study.now) (records_of bytes.now) result }
    ensures shaped { IfOk result (IsShaped (length (names_of study.now))) }
{
    let records = match Records::new(alloc, bytes) {
        Ok(records) => records,
        Err(_) => return Err(SheetFault::Memory),
    };
    let mut cursor = Cursor {
        records,
        row: ByteRecord::new(alloc),
        number: 0,
    };
    read_records(alloc, &mut cursor, study)
}
