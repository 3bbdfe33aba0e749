ghost use Rattle.std.specs.Prelude.{◌≡◌, ◌<◌, ◌++◌, IfOk, OnOk, Some, length, map};
ghost use Rattle.ofit_num.specs.Sheet.{FitsCount};
ghost use Rattle.ofit_records.specs.Written.{record_text, records_text};
ghost use Rattle.ofit_study.specs.Study.{names_of};
ghost use Rattle.ofit_sheet.specs.Parts.{size_of, entry_of, flow_of};
ghost use Rattle.ofit_sheet.specs.SheetText.{header_fields, bounds_fields, size_fields, size_records, value_fields, flow_fields, sheet_text};

use crate::sheet::Sheet;
use crate::size::Size;
use itoa::Buffer;
use ofit_num::Frac;
use ofit_records::RecordWriter;
use ofit_study::{Settings, Study, bound_name};
use std::alloc::{AllocError, Global};

/// Writes record 1.
fn write_header(writer: &mut RecordWriter, sheet: &Sheet) -> Result<(), AllocError>
    ensures { OnOk result (writer.new ≡ writer.old ++ record_text (header_fields sheet.now)) }
{
    let settings = sheet.settings();
    let mut places = Buffer::new();
    let version: &[u8] = match sheet.size() {
        None => b"1",
        Some(_) => b"2",
    };
    let fields: [&[u8]; 4] = [
        b"ofit-sheet",
        version,
        settings.loss.name(),
        places.format(settings.places).as_bytes(),
    ];
    writer.add_record(&fields)
}

/// Writes the bounds.
fn write_bounds(writer: &mut RecordWriter, settings: &Settings) -> Result<(), AllocError>
    ensures { OnOk result (writer.new ≡ writer.old ++ record_text (bounds_fields settings.now)) }
{
    let mut lo = Buffer::new();
    let mut hi = Buffer::new();
    let fields: [&[u8]; 4] = [
        b"bounds",
        bound_name(settings.lo, &mut lo),
        bound_name(settings.hi, &mut hi),
        b"-",
    ];
    writer.add_record(&fields)
}

/// Writes a size.
fn write_size_record(writer: &mut RecordWriter, size: Size) -> Result<(), AllocError>
    ensures { OnOk result (writer.new ≡ writer.old ++ record_text (size_fields (size_of size))) }
{
    let mut rows = Buffer::new();
    let mut weight = Buffer::new();
    let fields: [&[u8]; 4] = [
        b"size",
        rows.format(size.rows).as_bytes(),
        weight.format(size.weight).as_bytes(),
        b"-",
    ];
    writer.add_record(&fields)
}

/// Writes the size, where the sheet has one.
fn write_size(writer: &mut RecordWriter, sheet: &Sheet) -> Result<(), AllocError>
    ensures { OnOk result (writer.new ≡ writer.old ++ records_text (size_records sheet.now.size)) }
{
    match sheet.size() {
        None => Ok(()),
        Some(size) => write_size_record(writer, size),
    }
}

/// Writes the value of a group.
fn write_value(
    writer: &mut RecordWriter,
    study: &Study,
    place: u32,
    value: Frac,
) -> Result<(), AllocError>
    requires { place < length (names_of study.now) }
    ensures { OnOk result (writer.new ≡ writer.old ++ record_text (value_fields (names_of study.now) (entry_of (place, value)))) }
{
    let mut num = Buffer::new();
    let mut den = Buffer::new();
    let fields: [&[u8]; 4] = [
        b"value",
        study.group_name(place),
        num.format(value.num()).as_bytes(),
        den.format(value.den()).as_bytes(),
    ];
    writer.add_record(&fields)
}

/// Writes a flow.
fn write_flow(
    writer: &mut RecordWriter,
    study: &Study,
    flow: (u32, u32, i128),
) -> Result<(), AllocError>
    requires low { flow.0 < length (names_of study.now) }
    requires high { flow.1 < length (names_of study.now) }
    ensures { OnOk result (writer.new ≡ writer.old ++ record_text (flow_fields (names_of study.now) (flow_of flow))) }
{
    let (low, high, amount) = flow;
    let mut size = Buffer::new();
    let fields: [&[u8]; 4] = [
        b"flow",
        study.group_name(low),
        study.group_name(high),
        size.format(amount.unsigned_abs()).as_bytes(),
    ];
    writer.add_record(&fields)
}

/// Writes the values by rising place.
fn write_values(writer: &mut RecordWriter, study: &Study, sheet: &Sheet) -> Result<(), AllocError>
    requires { FitsCount (length (names_of study.now)) sheet.now }
    ensures { OnOk result (writer.new ≡ writer.old ++ records_text (map (value_fields (names_of study.now)) sheet.now.values)) }
{
    for index in 0..sheet.value_count() {
        let (place, value) = sheet.value_at(index);
        write_value(writer, study, place, value)?;
    }
    Ok(())
}

/// Writes the flows in their order.
fn write_flows(writer: &mut RecordWriter, study: &Study, sheet: &Sheet) -> Result<(), AllocError>
    requires { FitsCount (length (names_of study.now)) sheet.now }
    ensures { OnOk result (writer.new ≡ writer.old ++ records_text (map (flow_fields (names_of study.now)) sheet.now.flows)) }
{
    for index in 0..sheet.flow_count() {
        write_flow(writer, study, sheet.flow_at(index))?;
    }
    Ok(())
}

/// The text of a sheet for a study that names its groups: version 2 for a sheet with a size, and else
/// version 1. Time and memory linear in the text.
pub fn write_sheet(alloc: Global, study: &Study, sheet: &Sheet) -> Result<Vec<u8>, AllocError>
    requires { FitsCount (length (names_of study.now)) sheet.now }
    ensures { IfOk result (λ text. text.items ≡ sheet_text (names_of study.now) sheet.now) }
{
    let mut writer = RecordWriter::new(alloc)?;
    write_header(&mut writer, sheet)?;
    write_bounds(&mut writer, sheet.settings())?;
    write_size(&mut writer, sheet)?;
    write_values(&mut writer, study, sheet)?;
    write_flows(&mut writer, study, sheet)?;
    let end: [&[u8]; 4] = [b"end", b"-", b"-", b"-"];
    writer.add_record(&end)?;
    writer.into_text()
}
