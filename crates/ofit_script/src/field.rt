ghost use Rattle.std.specs.Prelude.{◌≡◌, ◌≤◌, ◌<◌, ◌⊎◌, ℕ, IfErr, IfOk, Err, Some, length, slice_get};
ghost use Rattle.csv.specs.Records.{fields_of};
ghost use Rattle.ofit_num.specs.declared.decimal.NumFault.{NumFault as NumberFault};
ghost use Rattle.ofit_study.specs.FieldRead.{IsRowNumber, IsValue, IsWeight, ValueRead};
ghost use Rattle.ofit_study.specs.Name.{IsName};
ghost use Rattle.ofit_script.specs.declared.fault.ScriptFault.TheVariants.{BadRow, BadWeight, Memory, NotName};
ghost use Rattle.ofit_script.specs.Spelling.{value_fault};

use crate::fault::ScriptFault;
use csv::ByteRecord;
use ofit_num::NumFault;
use ofit_records::field_of;
use ofit_study::{Name, read_row_number, read_value, read_weight};
use std::alloc::Global;

/// The field at a place, counted from 0.
pub(crate) fn field_at(row: &ByteRecord, place: usize) -> &[u8]
    requires { place < length (fields_of row.now) }
    ensures { slice_get (fields_of row.now) place ≡ Some result.now }
{
    match field_of(row, place) {
        Some(field) => field,
        None => unreachable!(),
    }
}

/// The fault of the record with this number whose value isn't read.
fn value_fault(fault: NumFault, number: u32) -> ScriptFault
    ensures { result ≡ value_fault fault number }
{
    match fault {
        NumFault::NotNumber => ScriptFault::NotNumber(number),
        NumFault::TooFine => ScriptFault::TooFine(number),
        NumFault::TooLarge => ScriptFault::TooLarge(number),
    }
}

/// The name that a field of the record with this number holds.
pub(crate) fn group_name(alloc: Global, text: &[u8], number: u32) -> Result<Name, ScriptFault>
    ensures ok { IfOk result (λ name. (name ≡ text.now) × IsName text.now) }
    ensures err { IfErr result (λ fault. (fault ≡ Memory) ⊎ ((fault ≡ NotName number) × (IsName text.now → ⊥))) }
{
    match Name::make(alloc, text) {
        Ok(Some(name)) => Ok(name),
        Ok(None) => Err(ScriptFault::NotName(number)),
        Err(_) => Err(ScriptFault::Memory),
    }
}

/// The number of a row that a field of the record with this number holds.
pub(crate) fn row_number(text: &[u8], number: u32) -> Result<u32, ScriptFault>
    ensures ok { IfOk result (λ n. IsRowNumber text.now n) }
    ensures err { IfErr result (λ fault. (fault ≡ BadRow number) × ((n : ℕ) → IsRowNumber text.now n → ⊥)) }
{
    match read_row_number(text) {
        Ok(row) => Ok(row),
        Err(_) => Err(ScriptFault::BadRow(number)),
    }
}

/// The value that a field of the record with this number holds.
pub(crate) fn row_value(text: &[u8], places: u32, number: u32) -> Result<i64, ScriptFault>
    requires { places ≤ 6 }
    ensures ok { IfOk result (λ value. IsValue places text.now value) }
    ensures err { IfErr result (λ fault. (why : NumberFault) × (fault ≡ value_fault why number) × ValueRead places text.now (Err why)) }
{
    match read_value(text, places) {
        Ok(value) => Ok(value),
        Err(why) => Err(value_fault(why, number)),
    }
}

/// The weight that a field of the record with this number holds.
pub(crate) fn row_weight(text: &[u8], number: u32) -> Result<u64, ScriptFault>
    ensures ok { IfOk result (λ weight. IsWeight text.now weight) }
    ensures err { IfErr result (λ fault. (fault ≡ BadWeight number) × ((n : ℕ) → IsWeight text.now n → ⊥)) }
{
    match read_weight(text) {
        Ok(weight) => Ok(weight),
        Err(_) => Err(ScriptFault::BadWeight(number)),
    }
}
