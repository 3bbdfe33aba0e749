ghost use Rattle.std.specs.Prelude.{◌≡◌, ◌≤◌, IfNone, IfSome, Some, length, slice_get};
ghost use Rattle.csv.specs.Records.{fields_of};

use csv::ByteRecord;

/// The field of a record at a place, counted from 0. None where the record is too short for it.
pub fn field_of(row: &ByteRecord, place: usize) -> Option<&[u8]>
    ensures none { IfNone result (length (fields_of row.now) ≤ place) }
    ensures some { IfSome result (λ field. slice_get (fields_of row.now) place ≡ Some field.now) }
{
    row.get(place)
}
