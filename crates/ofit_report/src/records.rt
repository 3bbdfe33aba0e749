ghost use Rattle.std.specs.Prelude.{◌≡◌, ◌≤◌, ◌+◌, ◌++◌, IfOk, OnOk, ℤ, pos, ◌≤ℤ◌, decimal, unsigned_abs};
ghost use Rattle.ofit_num.specs.declared.limits.TheConstants.{MOST_WEIGHT};
ghost use Rattle.ofit_num.specs.RowTotals.{total_weight};
ghost use Rattle.ofit_records.specs.Written.{record_text};
ghost use Rattle.ofit_report.specs.ReportText.{IsRoundedDown, group_fields, block_fields};

use crate::rows::weight_of;
use itoa::Buffer;
use ofit_num::{Frac, Row, append_decimal};
use ofit_records::RecordWriter;
use std::alloc::{AllocError, Global};

/// How many decimals a value has besides those of a unit.
const MORE_PLACES: u32 = 3;

/// The value, rounded down to three decimals more than the places.
pub(crate) fn rounded(alloc: Global, value: &Frac, places: u32) -> Result<Vec<u8>, AllocError>
    requires { places ≤ 6 }
    ensures { IfOk result (λ text. IsRoundedDown value.now places text.items) }
{
    let mut text = Vec::new(alloc);
    let units = value.floor_scaled(MORE_PLACES);
    append_decimal(&mut text, units, places + MORE_PLACES)?;
    Ok(text)
}

/// Writes the record of a group.
pub(crate) fn write_group(
    writer: &mut RecordWriter,
    name: &[u8],
    rows: &[Row],
    block: u32,
    value: &Frac,
    decimal: &[u8],
) -> Result<(), AllocError>
    requires { total_weight rows.now ≤ MOST_WEIGHT }
    ensures { OnOk result (writer.new ≡ writer.old ++ record_text (group_fields name.now rows.now block value.now decimal.now)) }
{
    let mut count = Buffer::new();
    let mut weight = Buffer::new();
    let mut number = Buffer::new();
    let mut num = Buffer::new();
    let mut den = Buffer::new();
    let fields: [&[u8]; 8] = [
        b"group",
        name,
        count.format(rows.len()).as_bytes(),
        weight.format(weight_of(rows)).as_bytes(),
        number.format(block).as_bytes(),
        num.format(value.num()).as_bytes(),
        den.format(value.den()).as_bytes(),
        decimal,
    ];
    writer.add_record(&fields)
}

/// Writes the record of a block.
pub(crate) fn write_block(
    writer: &mut RecordWriter,
    block: u32,
    groups: usize,
    rows: &[Row],
    value: &Frac,
    cost: (i128, i128),
) -> Result<(), AllocError>
    requires weight { total_weight rows.now ≤ MOST_WEIGHT }
    requires cost { pos 1 ≤ℤ cost.1 }
    ensures { OnOk result (writer.new ≡ writer.old ++ record_text (block_fields block groups rows.now value.now (record { num = cost.0; den = unsigned_abs cost.1 }))) }
{
    let (top, bottom) = cost;
    let mut number = Buffer::new();
    let mut weight = Buffer::new();
    let mut count = Buffer::new();
    let mut num = Buffer::new();
    let mut den = Buffer::new();
    let mut cost_num = Buffer::new();
    let mut cost_den = Buffer::new();
    let fields: [&[u8]; 8] = [
        b"block",
        number.format(block).as_bytes(),
        count.format(groups).as_bytes(),
        weight.format(weight_of(rows)).as_bytes(),
        num.format(value.num()).as_bytes(),
        den.format(value.den()).as_bytes(),
        cost_num.format(top).as_bytes(),
        cost_den.format(bottom.unsigned_abs()).as_bytes(),
    ];
    writer.add_record(&fields)
}
