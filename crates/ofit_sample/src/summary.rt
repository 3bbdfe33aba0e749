ghost use Rattle.std.specs.Prelude.{◌≡◌, ◌++◌, OnOk};
ghost use Rattle.ofit_records.specs.Written.{record_text};
ghost use Rattle.ofit_sample.specs.SampleText.{kind_text, header_fields, size_fields, parts_fields, value_fields};

use itoa::Buffer;
use ofit_num::Frac;
use ofit_records::RecordWriter;
use ofit_study::Study;
use ofit_words::{Kind, SampleJob};
use std::alloc::AllocError;

/// The name of a kind.
fn kind_name(kind: Kind) -> &'static [u8]
    ensures { result.now ≡ kind_text kind }
{
    match kind {
        Kind::Chain => b"chain",
        Kind::Umbrella => b"umbrella",
        Kind::Tree => b"tree",
        Kind::General => b"general",
    }
}

/// Writes record 1: the seed and the kind.
pub(crate) fn write_header(writer: &mut RecordWriter, job: &SampleJob) -> Result<(), AllocError>
    ensures { OnOk result (writer.new ≡ writer.old ++ record_text (header_fields job.now)) }
{
    let mut seed = Buffer::new();
    let fields: [&[u8]; 4] = [
        b"ofit-sample",
        b"1",
        seed.format(job.seed).as_bytes(),
        kind_name(job.kind),
    ];
    writer.add_record(&fields)
}

/// Writes how many groups, rows and pairs there are.
pub(crate) fn write_size(writer: &mut RecordWriter, study: &Study) -> Result<(), AllocError>
    ensures { OnOk result (writer.new ≡ writer.old ++ record_text (size_fields study.now)) }
{
    let mut groups = Buffer::new();
    let mut rows = Buffer::new();
    let mut pairs = Buffer::new();
    let fields: [&[u8]; 4] = [
        b"size",
        groups.format(study.group_count()).as_bytes(),
        rows.format(study.row_count()).as_bytes(),
        pairs.format(study.pair_count()).as_bytes(),
    ];
    writer.add_record(&fields)
}

/// Writes how many components and blocks there are.
pub(crate) fn write_parts(
    writer: &mut RecordWriter,
    components: u32,
    blocks: u32,
) -> Result<(), AllocError>
    ensures { OnOk result (writer.new ≡ writer.old ++ record_text (parts_fields components blocks)) }
{
    let mut component_count = Buffer::new();
    let mut block_count = Buffer::new();
    let fields: [&[u8]; 4] = [
        b"parts",
        component_count.format(components).as_bytes(),
        block_count.format(blocks).as_bytes(),
        b"-",
    ];
    writer.add_record(&fields)
}

/// Writes a value under a name.
pub(crate) fn write_value(
    writer: &mut RecordWriter,
    name: &[u8],
    value: &Frac,
) -> Result<(), AllocError>
    ensures { OnOk result (writer.new ≡ writer.old ++ record_text (value_fields name.now value.now)) }
{
    let mut num = Buffer::new();
    let mut den = Buffer::new();
    let fields: [&[u8]; 4] = [
        name,
        num.format(value.num()).as_bytes(),
        den.format(value.den()).as_bytes(),
        b"-",
    ];
    writer.add_record(&fields)
}
