ghost use Rattle.std.specs.Prelude.{◌≡◌, ◌+◌, ◌<◌, ◌≤◌, ◌++◌, IfOk, OnOk, Some, slice_get, length, map, [], ◌∷◌, codes};
ghost use Rattle.std.specs.List.{enumerate_from};
ghost use Rattle.ofit_num.specs.declared.limits.TheConstants.{MOST_GROUPS};
ghost use Rattle.ofit_records.specs.Written.{record_text, records_text};
ghost use Rattle.ofit_study.specs.Study.{names_of};
ghost use Rattle.ofit_sheet.specs.declared.peaked.limits.TheConstants.{MOST_PEAK_GROUPS};
ghost use Rattle.ofit_sheet.specs.Peaked.{IsShaped};
ghost use Rattle.ofit_sheet.specs.PeakedText.{peaked_header_fields, peak_fields, peaked_value_fields, value_records, step_fields, side_start, side_fields, side_records, sides_records, peaked_text};
ghost use Rattle.ofit_sheet.specs.Sides.{sides_of};
ghost use Rattle.ofit_study.specs.FieldText.{dash};

use crate::peaked::sheet::Peaked;
use crate::peaked::side::Side;
use crate::peaked::slope::Slope;
use itoa::Buffer;
use ofit_records::RecordWriter;
use ofit_study::{LossKind, Study};
use std::alloc::{AllocError, Global};

/// Writes record 1.
fn write_header(writer: &mut RecordWriter, places: u32) -> Result<(), AllocError>
    ensures { OnOk result (writer.new ≡ writer.old ++ record_text (peaked_header_fields places)) }
{
    let mut buffer = Buffer::new();
    let fields: [&[u8]; 4] = [
        b"ofit-peaked",
        b"1",
        LossKind::Median.name(),
        buffer.format(places).as_bytes(),
    ];
    writer.add_record(&fields)
}

/// Writes the record of no peak.
fn write_no_peak(writer: &mut RecordWriter) -> Result<(), AllocError>
    ensures { OnOk result (writer.new ≡ writer.old ++ record_text (codes "peak" ∷ dash ∷ codes "0" ∷ dash ∷ [])) }
{
    let fields: [&[u8]; 4] = [b"peak", b"-", b"0", b"-"];
    writer.add_record(&fields)
}

/// Writes the peak and the cost.
fn write_peak_at(
    writer: &mut RecordWriter,
    study: &Study,
    place: u32,
    cost: u128,
) -> Result<(), AllocError>
    requires { place < length (names_of study.now) }
    ensures { OnOk result (writer.new ≡ writer.old ++ record_text (peak_fields (names_of study.now) (Some place) cost)) }
{
    let mut buffer = Buffer::new();
    let fields: [&[u8]; 4] = [
        b"peak",
        study.group_name(place),
        buffer.format(cost).as_bytes(),
        b"-",
    ];
    writer.add_record(&fields)
}

/// Writes the peak, where there is one, and the cost.
fn write_peak(writer: &mut RecordWriter, study: &Study, peaked: &Peaked) -> Result<(), AllocError>
    requires { IsShaped (length (names_of study.now)) peaked.now }
    ensures { OnOk result (writer.new ≡ writer.old ++ record_text (peak_fields (names_of study.now) peaked.now.peak peaked.now.cost)) }
{
    match peaked.peak() {
        None => write_no_peak(writer),
        Some(place) => write_peak_at(writer, study, place, peaked.cost()),
    }
}

/// Writes the value of a group.
fn write_value(
    writer: &mut RecordWriter,
    study: &Study,
    place: u32,
    value: i64,
) -> Result<(), AllocError>
    requires { place < length (names_of study.now) }
    ensures { OnOk result (writer.new ≡ writer.old ++ record_text (peaked_value_fields (names_of study.now) (place, value))) }
{
    let mut buffer = Buffer::new();
    let fields: [&[u8]; 4] = [
        b"value",
        study.group_name(place),
        buffer.format(value).as_bytes(),
        b"-",
    ];
    writer.add_record(&fields)
}

/// Writes the values in the order of the groups.
fn write_values(writer: &mut RecordWriter, study: &Study, peaked: &Peaked) -> Result<(), AllocError>
    requires { IsShaped (length (names_of study.now)) peaked.now }
    ensures { OnOk result (writer.new ≡ writer.old ++ records_text (value_records (names_of study.now) peaked.now.values)) }
{
    for place in 0..study.group_count() {
        write_value(writer, study, place, peaked.value(place))?;
    }
    Ok(())
}

/// Writes a step of the group at a place.
fn write_step(
    writer: &mut RecordWriter,
    study: &Study,
    place: u32,
    step: (i64, i128),
) -> Result<(), AllocError>
    requires { place < length (names_of study.now) }
    ensures { OnOk result (writer.new ≡ writer.old ++ record_text (step_fields (names_of study.now) (place, step))) }
{
    let (value, amount) = step;
    let mut number = Buffer::new();
    let mut size = Buffer::new();
    let fields: [&[u8]; 4] = [
        b"step",
        study.group_name(place),
        number.format(value).as_bytes(),
        size.format(amount.unsigned_abs()).as_bytes(),
    ];
    writer.add_record(&fields)
}

/// Writes the steps of the groups from a place on.
fn write_steps(
    writer: &mut RecordWriter,
    study: &Study,
    start: u32,
    side: &Side,
) -> Result<(), AllocError>
    requires { start + length side.now ≤ length (names_of study.now) }
    ensures { OnOk result (writer.new ≡ writer.old ++ records_text (map (step_fields (names_of study.now)) (enumerate_from start side.now))) }
{
    study.keeps_limits();
    let mut place = start;
    for step in side.steps() {
        write_step(writer, study, place, *step)?;
        place += 1;
    }
    Ok(())
}

/// Writes the record before the steps of a side.
fn write_side_header(writer: &mut RecordWriter, slope: Slope, index: u32) -> Result<(), AllocError>
    requires { index < MOST_GROUPS }
    ensures { OnOk result (writer.new ≡ writer.old ++ record_text (side_fields slope index)) }
{
    let mut buffer = Buffer::new();
    let fields: [&[u8]; 4] = [
        slope.name(),
        buffer.format(slope.number(index)).as_bytes(),
        b"-",
        b"-",
    ];
    writer.add_record(&fields)
}

/// Writes a side.
fn write_side(
    writer: &mut RecordWriter,
    study: &Study,
    slope: Slope,
    index: u32,
    side: &Side,
) -> Result<(), AllocError>
    requires index { index < MOST_GROUPS }
    requires within { side_start slope index + length side.now ≤ length (names_of study.now) }
    ensures { OnOk result (writer.new ≡ writer.old ++ records_text (side_records (names_of study.now) slope (index, side.now))) }
{
    write_side_header(writer, slope, index)?;
    write_steps(writer, study, slope.start(index), side)
}

/// The side of a slope by its index.
fn side_at(peaked: &Peaked, slope: Slope, index: u32) -> &Side
    requires few { index < MOST_GROUPS }
    requires there { index < length (sides_of slope peaked.now) }
    ensures { slice_get (sides_of slope peaked.now) index ≡ Some result.now }
{
    match slope {
        Slope::Rise => peaked.rise(index + 1),
        Slope::Fall => peaked.fall(index),
    }
}

/// Writes the sides of a slope.
fn write_sides(
    writer: &mut RecordWriter,
    study: &Study,
    slope: Slope,
    peaked: &Peaked,
) -> Result<(), AllocError>
    requires { IsShaped (length (names_of study.now)) peaked.now }
    ensures { OnOk result (writer.new ≡ writer.old ++ records_text (sides_records (names_of study.now) slope (sides_of slope peaked.now))) }
{
    for index in 0..study.group_count() {
        write_side(writer, study, slope, index, side_at(peaked, slope, index))?;
    }
    Ok(())
}

/// The text of a peaked sheet for a study that names its groups. Time and memory linear in the text.
pub fn write_peaked(alloc: Global, study: &Study, peaked: &Peaked) -> Result<Vec<u8>, AllocError>
    requires few { length (names_of study.now) ≤ MOST_PEAK_GROUPS }
    requires shaped { IsShaped (length (names_of study.now)) peaked.now }
    ensures { IfOk result (λ text. text.items ≡ peaked_text (names_of study.now) peaked.now) }
{
    let mut writer = RecordWriter::new(alloc)?;
    write_header(&mut writer, peaked.places())?;
    write_peak(&mut writer, study, peaked)?;
    write_values(&mut writer, study, peaked)?;
    write_sides(&mut writer, study, Slope::Rise, peaked)?;
    write_sides(&mut writer, study, Slope::Fall, peaked)?;
    let end: [&[u8]; 4] = [b"end", b"-", b"-", b"-"];
    writer.add_record(&end)?;
    writer.into_text()
}
