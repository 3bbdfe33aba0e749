ghost use Rattle.std.specs.Prelude.{◌≡◌, ◌<◌, ◌++◌, ℕ, List, IfOk, OnOk, length};
ghost use Rattle.ofit_num.specs.Fit.{BestValues};
ghost use Rattle.ofit_order.specs.Component.{IsComponentCount};
ghost use Rattle.ofit_order.specs.Numbers.{HasComponent};
ghost use Rattle.ofit_records.specs.Written.{record_text, records_text};
ghost use Rattle.ofit_study.specs.Study.{names_of, problem_stated, meaning_of};
ghost use Rattle.ofit_report.specs.BlockMeans.{HasBlockMeans};
ghost use Rattle.ofit_report.specs.Blocks.{block_order};
ghost use Rattle.ofit_report.specs.SameOrder.{IsSameOrder};
ghost use Rattle.ofit_report.specs.ReportText.{IsGroupRecord, IsBlockRecord, AreRecords, ReportText};

use crate::block::{block_of, order_of_blocks};
use crate::cost::cost_of;
use crate::count::count_components;
use crate::header::{write_header, write_size};
use crate::records::{rounded, write_block, write_group};
use crate::rows::rows_of;
use ofit_num::Frac;
use ofit_order::Order;
use ofit_records::RecordWriter;
use ofit_study::Study;
use std::alloc::{AllocError, Global};

/// Writes the record of the group at a place.
fn report_group(
    alloc: Global,
    writer: &mut RecordWriter,
    study: &Study,
    values: &[Frac],
    order: &Order,
    place: u32,
) -> Result<(), AllocError>
    requires count { length values.now ≡ length (names_of study.now) }
    requires order { IsSameOrder order.now (block_order study.now values.now) }
    requires place { place < length (names_of study.now) }
    ensures { OnOk result ((fields : List (List ℕ)) × IsGroupRecord study.now values.now place fields × (writer.new ≡ writer.old ++ record_text fields)) }
{
    study.keeps_limits();
    let value = &values[place as usize];
    let decimal = rounded(alloc, value, study.settings().places)?;
    write_group(
        writer,
        study.group_name(place),
        study.rows_of(place),
        block_of(order, study, values, place),
        value,
        decimal.as_slice(),
    )
}

/// Writes the records of all groups.
fn report_groups(
    alloc: Global,
    writer: &mut RecordWriter,
    study: &Study,
    values: &[Frac],
    order: &Order,
) -> Result<(), AllocError>
    requires count { length values.now ≡ length (names_of study.now) }
    requires order { IsSameOrder order.now (block_order study.now values.now) }
    ensures { OnOk result ((records : List (List (List ℕ))) × AreRecords (IsGroupRecord study.now values.now) (length (names_of study.now)) records
        × (writer.new ≡ writer.old ++ records_text records)) }
{
    for place in 0..study.group_count() {
        report_group(alloc, writer, study, values, order, place)?;
    }
    Ok(())
}

/// Writes the record of a block, counted from 0.
fn report_block(
    alloc: Global,
    writer: &mut RecordWriter,
    study: &Study,
    values: &[Frac],
    order: &Order,
    block: u32,
) -> Result<(), AllocError>
    requires count { length values.now ≡ length (names_of study.now) }
    requires means { HasBlockMeans study.now values.now }
    requires order { IsSameOrder order.now (block_order study.now values.now) }
    requires block { HasComponent order.now block }
    ensures { OnOk result ((fields : List (List ℕ)) × IsBlockRecord study.now values.now block fields × (writer.new ≡ writer.old ++ record_text fields)) }
{
    let _blocks = order.component_count();
    study.keeps_limits();
    let members = order.members(block);
    let rows = rows_of(alloc, study, members)?;
    let value = &values[members[0] as usize];
    let _den = value.den();
    let cost = cost_of(study.settings().loss, rows.as_slice(), value);
    write_block(
        writer,
        block + 1,
        members.len(),
        rows.as_slice(),
        value,
        cost,
    )
}

/// Writes the records of all blocks.
fn report_blocks(
    alloc: Global,
    writer: &mut RecordWriter,
    study: &Study,
    values: &[Frac],
    order: &Order,
    blocks: u32,
) -> Result<(), AllocError>
    requires count { length values.now ≡ length (names_of study.now) }
    requires means { HasBlockMeans study.now values.now }
    requires order { IsSameOrder order.now (block_order study.now values.now) }
    requires blocks { IsComponentCount order.now blocks }
    ensures { OnOk result ((records : List (List (List ℕ))) × AreRecords (IsBlockRecord study.now values.now) blocks records
        × (writer.new ≡ writer.old ++ records_text records)) }
{
    for block in 0..blocks {
        report_block(alloc, writer, study, values, order, block)?;
    }
    Ok(())
}

/// The report of a study with these values.
pub(crate) fn report_text(
    alloc: Global,
    study: &Study,
    values: &[Frac],
) -> Result<Vec<u8>, AllocError>
    requires count { length values.now ≡ length (names_of study.now) }
    requires means { HasBlockMeans study.now values.now }
    ensures { IfOk result (λ text. ReportText study.now values.now text.items) }
{
    let order = order_of_blocks(alloc, study, values)?;
    let components = count_components(alloc, study)?;
    let blocks = order.component_count();
    let mut writer = RecordWriter::new(alloc)?;
    write_header(&mut writer, study.settings())?;
    write_size(&mut writer, study, components, blocks)?;
    report_groups(alloc, &mut writer, study, values, &order)?;
    report_blocks(alloc, &mut writer, study, values, &order, blocks)?;
    let end: [&[u8]; 8] = [b"end", b"-", b"-", b"-", b"-", b"-", b"-", b"-"];
    writer.add_record(&end)?;
    writer.into_text()
}

/// The report of a study with the values of an optimal fit, bounds included. O((n + m) log n + r) time
/// and linear memory for n groups, m pairs and r rows.
///
/// A block's cost fits 128 bits. The sums of weights, weighted values and weighted squares of rows within
/// their limits are at most 10^10, 10^19 and 10^28, and under squares an optimal fit gives each block the
/// mean of its rows, or a bound: `proofs/Means` shows it of values that are best, since the rows of a block
/// strictly between the bounds could gain by being raised or lowered together.
pub fn write_report(alloc: Global, study: &Study, values: &[Frac]) -> Result<Vec<u8>, AllocError>
    requires { BestValues (meaning_of study.now.settings.loss) (problem_stated study.now) values.now }
    ensures { IfOk result (λ text. ReportText study.now values.now text.items) }
{
    study.keeps_limits();
    report_text(alloc, study, values)
}
