//! The level table as text.

ghost use Rattle.std.specs.Prelude.{◌≡◌, ◌≤◌, ◌++◌, IfOk, OnOk};
ghost use Rattle.ofit_records.specs.Written.{record_text};
ghost use Rattle.ofit_levels.specs.LevelText.{header_fields, level_fields, level_table};

use crate::counts::levels;
use crate::factorial::ordering_count;
use itoa::Buffer;
use ofit_records::RecordWriter;
use std::alloc::{AllocError, Global};

/// Writes the table's first record.
fn write_header(writer: &mut RecordWriter, k: u32, all: u128) -> Result<(), AllocError>
    ensures { OnOk result (writer.new ≡ writer.old ++ record_text (header_fields k all)) }
{
    let mut items = Buffer::new();
    let mut orderings = Buffer::new();
    let fields: [&[u8]; 4] = [
        b"ofit-levels",
        b"1",
        items.format(k).as_bytes(),
        orderings.format(all).as_bytes(),
    ];
    writer.add_record(&fields)
}

/// Writes the record of a level.
fn write_level(
    writer: &mut RecordWriter,
    level: u32,
    count: u128,
    all: u128,
) -> Result<(), AllocError>
    ensures { OnOk result (writer.new ≡ writer.old ++ record_text (level_fields level count all)) }
{
    let mut number = Buffer::new();
    let mut part = Buffer::new();
    let mut whole = Buffer::new();
    let fields: [&[u8]; 4] = [
        b"level",
        number.format(level).as_bytes(),
        part.format(count).as_bytes(),
        whole.format(all).as_bytes(),
    ];
    writer.add_record(&fields)
}

/// The level table of k items, as records of comma-separated fields: for each l from 1 to k the
/// count of `levels` and k!, its fraction not reduced.
pub fn level_text(alloc: Global, k: u32) -> Result<Vec<u8>, AllocError>
    requires least { 1 ≤ k }
    requires most { k ≤ 34 }
    ensures { IfOk result (λ text. text.items ≡ level_table k) }
{
    let all = ordering_count(k);
    let counts = levels(k);
    let mut writer = RecordWriter::new(alloc)?;
    write_header(&mut writer, k, all)?;
    for place in 0..k {
        write_level(&mut writer, place + 1, counts[place as usize], all)?;
    }
    let end: [&[u8]; 4] = [b"end", b"-", b"-", b"-"];
    writer.add_record(&end)?;
    writer.into_text()
}
