ghost use Rattle.std.specs.Prelude.{◌≡◌, ◌+◌, ◌⊎◌, [], IfErr, OnOk, Ok, Err, true, false};
ghost use Rattle.csv.specs.Records.{fields_of};
ghost use Rattle.ofit_study.specs.Settings.{InLimits};
ghost use Rattle.ofit_table.specs.declared.fault.DataFault.TheVariants.{Memory};
ghost use Rattle.ofit_table.specs.DataRead.{DataRead};
ghost use Rattle.ofit_table.specs.Rows.{RowFault};
ghost use Rattle.ofit_table.specs.Reading.{GainsRecord, RowsRead, limit_fault};

use crate::fault::DataFault;
use crate::header::{DataColumns, data_columns};
use crate::row::read_row;
use csv::ByteRecord;
use ofit_records::Records;
use ofit_study::{AddFault, Settings, Study};
use std::alloc::Global;

/// The fault of the record with this number that a study doesn't take.
fn limit_of(fault: AddFault, number: u32) -> DataFault
    ensures { result ≡ limit_fault fault number }
{
    match fault {
        AddFault::TooManyRows => DataFault::TooManyRows(number),
        AddFault::TooHeavy => DataFault::TooHeavy(number),
        AddFault::TooManyGroups => DataFault::TooManyGroups(number),
        AddFault::Memory => DataFault::Memory,
    }
}

/// Adds the row of the record with this number.
fn add_record(
    study: &mut Study,
    row: &ByteRecord,
    columns: DataColumns,
    number: u32,
) -> Result<(), DataFault>
    ensures ok { OnOk result (GainsRecord study.old.settings.places columns (fields_of row.now) study.old study.new) }
    ensures err { IfErr result (λ fault. (fault ≡ Memory) ⊎ RowFault study.old.settings.places columns study.old.rows (fields_of row.now) number fault) }
{
    let places = study.settings().places;
    let parts = match read_row(row, columns, places, number) {
        Ok(parts) => parts,
        Err(fault) => return Err(fault),
    };
    match study.add_row(parts.group, parts.value, parts.weight) {
        Ok(()) => Ok(()),
        Err(fault) => Err(limit_of(fault, number)),
    }
}

/// Adds the rows of the records that come to a study without rows, or tells the first fault of a record.
fn add_records(
    study: &mut Study,
    records: &mut Records<'_>,
    row: &mut ByteRecord,
    columns: DataColumns,
) -> Result<(), DataFault>
    requires rows { study.old.rows ≡ [] }
    requires pairs { study.old.pairs ≡ [] }
    ensures ok { OnOk result (RowsRead columns records.old study.old.settings (Ok study.new)) }
    ensures err { IfErr result (λ fault. RowsRead columns records.old study.old.settings (Err fault)) }
{
    loop {
        let number = study.row_count() + 2;
        match records.read_next(row) {
            Ok(true) => {}
            Ok(false) => return Ok(()),
            Err(_) => return Err(DataFault::Memory),
        }
        if let Err(fault) = add_record(study, row, columns, number) {
            return Err(fault);
        }
    }
}

/// The study of the records behind the header, or the first fault of a record.
fn read_rows(
    alloc: Global,
    mut records: Records<'_>,
    columns: DataColumns,
    settings: Settings,
) -> Result<Study, DataFault>
    requires { InLimits settings }
    ensures { RowsRead columns records.entry settings result }
{
    let mut study = Study::empty(alloc, settings);
    let mut row = ByteRecord::new(alloc);
    match add_records(&mut study, &mut records, &mut row, columns) {
        Ok(()) => Ok(study),
        Err(fault) => Err(fault),
    }
}

/// The study that a data table gives, without pairs: its columns `group`, `value` and, where it stands,
/// `weight`, each later record a row, in any order of the columns and beside any others. A value is a
/// decimal of whole units of 10^(-places).
///
/// The first fault otherwise: [`DataFault::NoHeader`]; then, for `group`, `value` and `weight` in this order,
/// [`DataFault::NoColumn`] or [`DataFault::ColumnTwice`]; then, record by record, the first of the others as
/// they stand in [`DataFault`]. Expected time linear in the bytes, memory linear in the rows.
pub fn read_data(alloc: Global, bytes: &[u8], settings: &Settings) -> Result<Study, DataFault>
    requires { InLimits settings.now }
    ensures { DataRead bytes.now settings.now result }
{
    let mut records = match Records::new(alloc, bytes) {
        Ok(records) => records,
        Err(_) => return Err(DataFault::Memory),
    };
    let mut header = ByteRecord::new(alloc);
    match records.read_next(&mut header) {
        Ok(true) => {}
        Ok(false) => return Err(DataFault::NoHeader),
        Err(_) => return Err(DataFault::Memory),
    }
    match data_columns(&header) {
        Ok(columns) => read_rows(alloc, records, columns, *settings),
        Err(fault) => Err(fault),
    }
}
