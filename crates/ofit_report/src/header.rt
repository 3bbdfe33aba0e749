ghost use Rattle.std.specs.Prelude.{◌≡◌, ◌++◌, OnOk};
ghost use Rattle.ofit_records.specs.Written.{record_text};
ghost use Rattle.ofit_report.specs.ReportText.{header_fields, size_fields};

use itoa::Buffer;
use ofit_records::RecordWriter;
use ofit_study::{Settings, Study, bound_name};
use std::alloc::AllocError;

/// Writes record 1: the loss, the places and the bounds.
pub(crate) fn write_header(writer: &mut RecordWriter, settings: &Settings) -> Result<(), AllocError>
    ensures { OnOk result (writer.new ≡ writer.old ++ record_text (header_fields settings.now)) }
{
    let mut places = Buffer::new();
    let mut lo = Buffer::new();
    let mut hi = Buffer::new();
    let fields: [&[u8]; 8] = [
        b"ofit-report",
        b"1",
        settings.loss.name(),
        places.format(settings.places).as_bytes(),
        bound_name(settings.lo, &mut lo),
        bound_name(settings.hi, &mut hi),
        b"-",
        b"-",
    ];
    writer.add_record(&fields)
}

/// Writes how many groups, rows, pairs, components and blocks there are.
pub(crate) fn write_size(
    writer: &mut RecordWriter,
    study: &Study,
    components: u32,
    blocks: u32,
) -> Result<(), AllocError>
    ensures { OnOk result (writer.new ≡ writer.old ++ record_text (size_fields study.now components blocks)) }
{
    let mut groups = Buffer::new();
    let mut rows = Buffer::new();
    let mut pairs = Buffer::new();
    let mut component_count = Buffer::new();
    let mut block_count = Buffer::new();
    let fields: [&[u8]; 8] = [
        b"size",
        groups.format(study.group_count()).as_bytes(),
        rows.format(study.row_count()).as_bytes(),
        pairs.format(study.pair_count()).as_bytes(),
        component_count.format(components).as_bytes(),
        block_count.format(blocks).as_bytes(),
        b"-",
        b"-",
    ];
    writer.add_record(&fields)
}
