ghost use Rattle.std.specs.Prelude.{◌≡◌, Bool, MatchOption};
ghost use Rattle.csv.specs.Records.{fields_of};
ghost use Rattle.ofit_sheet.specs.declared.header.Header.{Header as TheHeader};
ghost use Rattle.ofit_sheet.specs.Spelling.{version_of, IsHeader};

use crate::fields::four_of;
use crate::numeral::{is, read_count};
use csv::ByteRecord;
use ofit_study::LossKind;

/// What record 1 says.
#[derive(Clone, Copy)]
pub(crate) struct Header {
    /// Whether a size record follows the bounds: version 2, and else version 1.
    pub(crate) sized: bool,
    /// The loss of the fit.
    pub(crate) loss: LossKind,
    /// The decimal places of a unit.
    pub(crate) places: u32,
}

/// Whether the version of this number has a size record.
fn is_sized(text: &[u8]) -> Option<bool>
    ensures { MatchOption result ((sized : Bool) → text.now ≡ version_of sized → ⊥) (λ sized. text.now ≡ version_of sized) }
{
    if is(text, b"2") {
        Some(true)
    } else if is(text, b"1") {
        Some(false)
    } else {
        None
    }
}

/// What a record says that is a header.
pub(crate) fn header_of(row: &ByteRecord) -> Option<Header>
    ensures { MatchOption result ((head : TheHeader) → IsHeader (fields_of row.now) head → ⊥) (λ head. IsHeader (fields_of row.now) head) }
{
    let Some(fields) = four_of(row) else {
        return None;
    };
    if !is(fields.kind, b"ofit-sheet") {
        return None;
    }
    let Some(sized) = is_sized(fields.first) else {
        return None;
    };
    let Some(loss) = LossKind::named(fields.second) else {
        return None;
    };
    match read_count(fields.third, 6) {
        Ok(places) => Some(Header {
            sized,
            loss,
            places: places as u32,
        }),
        Err(_) => None,
    }
}
