ghost use Rattle.std.specs.Prelude.{◌≡◌, ◌+◌, ◌^◌, ◌≤◌, ◌<◌, ℕ, true, false, length, IfSome, IfNone};
ghost use Rattle.csv.specs.Records.{fields_of};
ghost use Rattle.ofit_table.specs.Columns.{IsNamedAt};
ghost use Rattle.ofit_table.specs.Reading.{HeaderRead, OrderHeaderRead};
ghost use Rattle.ofit_table.specs.Stands.{IsStanding};

use crate::column::Column;
use crate::fault::{DataFault, OrderFault};
use csv::ByteRecord;
use ofit_records::field_of;

/// The places of a data table's columns.
#[derive(Clone, Copy)]
pub(crate) struct DataColumns {
    pub(crate) group: usize,
    pub(crate) value: usize,
    pub(crate) weight: Option<usize>,
}

/// The places of an order file's columns.
#[derive(Clone, Copy)]
pub(crate) struct OrderColumns {
    pub(crate) low: usize,
    pub(crate) high: usize,
}

/// How often a column stands in a header.
#[derive(Clone, Copy)]
pub(crate) enum Stands {
    /// No field has its name.
    Nowhere,
    /// The field at this place alone has its name.
    At(usize),
    /// Two fields or more have its name.
    Twice,
}

/// Whether the field at a place has the column's name.
fn is_named(header: &ByteRecord, column: Column, place: usize) -> bool
    ensures yes { result ≡ true → IsNamedAt (fields_of header.now) column place }
    ensures no { result ≡ false → IsNamedAt (fields_of header.now) column place → ⊥ }
{
    match field_of(header, place) {
        Some(field) => field == column.name().as_bytes(),
        None => false,
    }
}

/// The first place from `start` on whose field has the column's name.
fn next_named(header: &ByteRecord, column: Column, start: usize) -> Option<usize>
    ensures none { IfNone result ((place : ℕ) → start ≤ place → IsNamedAt (fields_of header.now) column place → ⊥) }
    ensures some { IfSome result (λ p. (start ≤ p) × (p < length (fields_of header.now)) × IsNamedAt (fields_of header.now) column p) }
    ensures room { IfSome result (λ p. p + 1 < 2 ^ 64) }
    ensures first { IfSome result (λ p. (place : ℕ) → start ≤ place → place < p → IsNamedAt (fields_of header.now) column place → ⊥) }
{
    for place in start..header.len() {
        if is_named(header, column, place) {
            return Some(place);
        }
    }
    None
}

/// How often a column stands in a header.
pub(crate) fn standing(header: &ByteRecord, column: Column) -> Stands
    ensures { IsStanding (fields_of header.now) column result }
{
    match next_named(header, column, 0) {
        None => Stands::Nowhere,
        Some(first) => match next_named(header, column, first + 1) {
            None => Stands::At(first),
            Some(_) => Stands::Twice,
        },
    }
}

/// The places of a data table's columns, or the first fault of its header.
pub(crate) fn data_columns(header: &ByteRecord) -> Result<DataColumns, DataFault>
    ensures { HeaderRead (fields_of header.now) result }
{
    let group = match standing(header, Column::Group) {
        Stands::At(place) => place,
        Stands::Nowhere => return Err(DataFault::NoColumn(Column::Group)),
        Stands::Twice => return Err(DataFault::ColumnTwice(Column::Group)),
    };
    let value = match standing(header, Column::Value) {
        Stands::At(place) => place,
        Stands::Nowhere => return Err(DataFault::NoColumn(Column::Value)),
        Stands::Twice => return Err(DataFault::ColumnTwice(Column::Value)),
    };
    let weight = match standing(header, Column::Weight) {
        Stands::At(place) => Some(place),
        Stands::Nowhere => None,
        Stands::Twice => return Err(DataFault::ColumnTwice(Column::Weight)),
    };
    Ok(DataColumns {
        group,
        value,
        weight,
    })
}

/// The places of an order file's columns, or the first fault of its header.
pub(crate) fn order_columns(header: &ByteRecord) -> Result<OrderColumns, OrderFault>
    ensures { OrderHeaderRead (fields_of header.now) result }
{
    let low = match standing(header, Column::Low) {
        Stands::At(place) => place,
        Stands::Nowhere => return Err(OrderFault::NoColumn(Column::Low)),
        Stands::Twice => return Err(OrderFault::ColumnTwice(Column::Low)),
    };
    match standing(header, Column::High) {
        Stands::At(high) => Ok(OrderColumns { low, high }),
        Stands::Nowhere => Err(OrderFault::NoColumn(Column::High)),
        Stands::Twice => Err(OrderFault::ColumnTwice(Column::High)),
    }
}
