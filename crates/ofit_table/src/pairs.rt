ghost use Rattle.std.specs.Prelude.{◌≡◌, ◌≤◌, ◌+◌, ◌⊎◌, [], IfErr, IfOk, OnOk, Ok, Err, length};
ghost use Rattle.csv.specs.Records.{fields_of};
ghost use Rattle.ofit_num.specs.declared.limits.TheConstants.{LONGEST_FILE};
ghost use Rattle.ofit_study.specs.Study.{most_pairs, names_of};
ghost use Rattle.ofit_table.specs.declared.fault.OrderFault.TheVariants.{Memory};
ghost use Rattle.ofit_table.specs.Pairs.{IsPair, OwnPairFault};
ghost use Rattle.ofit_table.specs.PairsRead.{PairsRead};
ghost use Rattle.ofit_table.specs.Reading.{IsNotTaken, KnownRead, KnowsPair};

use crate::fault::OrderFault;
use crate::header::{OrderColumns, order_columns};
use crate::pair_set::PairSet;
use csv::ByteRecord;
use ofit_num::MOST_PAIRS;
use ofit_records::{Records, field_of};
use ofit_study::Study;
use std::alloc::Global;

/// The places of the groups that a record relates, or the first fault of the record alone.
fn read_pair(
    row: &ByteRecord,
    columns: OrderColumns,
    study: &Study,
    number: u32,
) -> Result<(u32, u32), OrderFault>
    ensures ok { IfOk result (λ pair. IsPair columns (names_of study.now) (fields_of row.now) pair) }
    ensures err { IfErr result (λ fault. OwnPairFault columns (names_of study.now) (fields_of row.now) number fault) }
{
    let Some(low) = field_of(row, columns.low) else {
        return Err(OrderFault::FieldMissing(number));
    };
    let Some(high) = field_of(row, columns.high) else {
        return Err(OrderFault::FieldMissing(number));
    };
    let Some(below) = study.place_of(low) else {
        return Err(OrderFault::UnknownGroup(number));
    };
    let Some(above) = study.place_of(high) else {
        return Err(OrderFault::UnknownGroup(number));
    };
    Ok((below, above))
}

/// Notes a pair, if it is new and there is room for it.
fn note_pair(known: &mut PairSet, pair: (u32, u32), number: u32) -> Result<(), OrderFault>
    requires { length known.old ≤ most_pairs }
    ensures ok { OnOk result (KnowsPair known.old pair known.new) }
    ensures few { OnOk result (length known.new ≤ most_pairs) }
    ensures err { IfErr result (λ fault. (fault ≡ Memory) ⊎ IsNotTaken known.old pair number fault) }
{
    if known.has(pair) {
        return Ok(());
    }
    if known.len() >= MOST_PAIRS as usize {
        return Err(OrderFault::TooManyPairs(number));
    }
    match known.add(pair) {
        Ok(()) => Ok(()),
        Err(_) => Err(OrderFault::Memory),
    }
}

/// Notes the pairs of the records that come, where none is known yet, or tells the first fault of a record.
fn note_records(
    known: &mut PairSet,
    records: &mut Records<'_>,
    row: &mut ByteRecord,
    columns: OrderColumns,
    study: &Study,
) -> Result<(), OrderFault>
    requires none { known.old ≡ [] }
    requires few { length records.old ≤ LONGEST_FILE + 1 }
    ensures ok { OnOk result (KnownRead columns study.now records.old (Ok known.new)) }
    ensures err { IfErr result (λ fault. KnownRead columns study.now records.old (Err fault)) }
{
    let mut number: u32 = 2;
    loop {
        match records.read_next(row) {
            Ok(true) => {}
            Ok(false) => return Ok(()),
            Err(_) => return Err(OrderFault::Memory),
        }
        let pair = match read_pair(row, columns, study, number) {
            Ok(pair) => pair,
            Err(fault) => return Err(fault),
        };
        if let Err(fault) = note_pair(known, pair, number) {
            return Err(fault);
        }
        number += 1;
    }
}

/// The pairs of the records behind the header, each once, or the first fault of a record.
fn read_known(
    alloc: Global,
    mut records: Records<'_>,
    columns: OrderColumns,
    study: &Study,
) -> Result<PairSet, OrderFault>
    requires { length records ≤ LONGEST_FILE + 1 }
    ensures { KnownRead columns study.now records.entry result }
{
    let mut known = PairSet::new(alloc);
    let mut row = ByteRecord::new(alloc);
    match note_records(&mut known, &mut records, &mut row, columns, study) {
        Ok(()) => Ok(known),
        Err(fault) => Err(fault),
    }
}

/// The study with the pairs of an order file in place of its own: the file's columns are `low` and `high`,
/// each later record relates two groups by their names, and equal pairs count once.
///
/// The first fault otherwise: [`OrderFault::NoHeader`]; then, for `low` and `high` in this order,
/// [`OrderFault::NoColumn`] or [`OrderFault::ColumnTwice`]; then, record by record, the first of
/// [`OrderFault::FieldMissing`], [`OrderFault::UnknownGroup`] and [`OrderFault::TooManyPairs`]. Expected time
/// linear in the bytes and the study, and the sorting of the pairs.
pub fn read_pairs(alloc: Global, bytes: &[u8], study: &Study) -> Result<Study, OrderFault>
    requires { length bytes.now ≤ LONGEST_FILE }
    ensures { PairsRead bytes.now study.now result }
{
    let mut records = match Records::new(alloc, bytes) {
        Ok(records) => records,
        Err(_) => return Err(OrderFault::Memory),
    };
    let mut header = ByteRecord::new(alloc);
    match records.read_next(&mut header) {
        Ok(true) => {}
        Ok(false) => return Err(OrderFault::NoHeader),
        Err(_) => return Err(OrderFault::Memory),
    }
    let columns = match order_columns(&header) {
        Ok(columns) => columns,
        Err(fault) => return Err(fault),
    };
    let known = match read_known(alloc, records, columns, study) {
        Ok(known) => known,
        Err(fault) => return Err(fault),
    };
    match study.with_pairs(known.as_slice()) {
        Ok(after) => Ok(after),
        Err(_) => Err(OrderFault::Memory),
    }
}
