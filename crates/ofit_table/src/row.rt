ghost use Rattle.std.specs.Prelude.{◌≡◌, ◌≤◌, ℕ, IfNone, IfSome, IfOk, IfErr, MatchOption, option_copied};
ghost use Rattle.csv.specs.Records.{fields_of};
ghost use Rattle.ofit_table.specs.Reading.{value_fault};
ghost use Rattle.ofit_table.specs.Rows.{AreTexts, IsTooShort, IsRowWeight, IsGood, OwnFault};

use crate::fault::DataFault;
use crate::header::DataColumns;
use csv::ByteRecord;
use ofit_num::NumFault;
use ofit_records::field_of;
use ofit_study::{is_name, read_value, read_weight};

/// The fields of a record that are used.
#[derive(Clone, Copy)]
struct Fields<'a> {
    group: &'a [u8],
    value: &'a [u8],
    weight: Option<&'a [u8]>,
}

/// What a record says of its row.
#[derive(Clone, Copy)]
pub(crate) struct RowParts<'a> {
    pub(crate) group: &'a [u8],
    pub(crate) value: i64,
    pub(crate) weight: u64,
}

/// The fields of a record that are used. None where it is too short for one of them.
fn used_fields(row: &ByteRecord, columns: DataColumns) -> Option<Fields<'_>>
    ensures none { IfNone result (IsTooShort columns (fields_of row.now)) }
    ensures some { IfSome result (λ f. AreTexts columns (fields_of row.now) record { group = f.group.now; value = f.value.now; weight = option_copied f.weight }) }
{
    let Some(group) = field_of(row, columns.group) else {
        return None;
    };
    let Some(value) = field_of(row, columns.value) else {
        return None;
    };
    let Some(place) = columns.weight else {
        return Some(Fields {
            group,
            value,
            weight: None,
        });
    };
    let Some(weight) = field_of(row, place) else {
        return None;
    };
    Some(Fields {
        group,
        value,
        weight: Some(weight),
    })
}

/// The fault of the record with this number whose value isn't read.
fn value_fault(fault: NumFault, number: u32) -> DataFault
    ensures { result ≡ value_fault fault number }
{
    match fault {
        NumFault::NotNumber => DataFault::NotNumber(number),
        NumFault::TooFine => DataFault::TooFine(number),
        NumFault::TooLarge => DataFault::TooLarge(number),
    }
}

/// The weight of a row: that which its field gives, and 1 where there is no such column.
fn weight_of(text: Option<&[u8]>) -> Option<u64>
    ensures { MatchOption result ((weight : ℕ) → IsRowWeight (option_copied text.entry) weight → ⊥) (λ weight. IsRowWeight (option_copied text.entry) weight) }
{
    match text {
        Some(text) => match read_weight(text) {
            Ok(weight) => Some(weight),
            Err(_) => None,
        },
        None => Some(1),
    }
}

/// What a record says of its row, or the first fault of the record alone.
pub(crate) fn read_row(
    row: &ByteRecord,
    columns: DataColumns,
    places: u32,
    number: u32,
) -> Result<RowParts<'_>, DataFault>
    requires { places ≤ 6 }
    ensures ok { IfOk result (λ parts. IsGood places columns (fields_of row.now) parts.group.now parts.value parts.weight) }
    ensures err { IfErr result (λ fault. OwnFault places columns (fields_of row.now) number fault) }
{
    let Some(fields) = used_fields(row, columns) else {
        return Err(DataFault::FieldMissing(number));
    };
    if !is_name(fields.group) {
        return Err(DataFault::NotName(number));
    }
    let value = match read_value(fields.value, places) {
        Ok(value) => value,
        Err(fault) => return Err(value_fault(fault, number)),
    };
    match weight_of(fields.weight) {
        Some(weight) => Ok(RowParts {
            group: fields.group,
            value,
            weight,
        }),
        None => Err(DataFault::BadWeight(number)),
    }
}
