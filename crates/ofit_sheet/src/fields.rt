ghost use Rattle.std.specs.Prelude.{◌≡◌, ◌≢◌, ◌∷◌, [], MatchOption, length};
ghost use Rattle.csv.specs.Records.{fields_of};
ghost use Rattle.ofit_sheet.specs.declared.fields.Kind.{Kind as TheKind};
ghost use Rattle.ofit_sheet.specs.Spelling.{kind_name};

use crate::numeral::is;
use csv::ByteRecord;
use ofit_records::field_of;

/// The kinds of records behind the header.
#[derive(Clone, Copy)]
pub(crate) enum Kind {
    /// The bounds of the fit.
    Bounds,
    /// How much data there was.
    Size,
    /// The value of a group.
    Value,
    /// A flow.
    Flow,
    /// The end.
    End,
}

/// The four fields of a record.
#[derive(Clone, Copy)]
pub(crate) struct Fields<'a> {
    /// The field that names the record's kind.
    pub(crate) kind: &'a [u8],
    /// The field behind it.
    pub(crate) first: &'a [u8],
    /// The third field.
    pub(crate) second: &'a [u8],
    /// The last field.
    pub(crate) third: &'a [u8],
}

/// The fields of a record that has four.
pub(crate) fn four_of(row: &ByteRecord) -> Option<Fields<'_>>
    ensures { MatchOption result (length (fields_of row.now) ≢ 4)
        (λ f. fields_of row.now ≡ f.kind.now ∷ f.first.now ∷ f.second.now ∷ f.third.now ∷ []) }
{
    if row.len() != 4 {
        return None;
    }
    let Some(kind) = field_of(row, 0) else {
        return None;
    };
    let Some(first) = field_of(row, 1) else {
        return None;
    };
    let Some(second) = field_of(row, 2) else {
        return None;
    };
    let Some(third) = field_of(row, 3) else {
        return None;
    };
    Some(Fields {
        kind,
        first,
        second,
        third,
    })
}

/// The kind of this name.
pub(crate) fn kind_of(text: &[u8]) -> Option<Kind>
    ensures { MatchOption result ((k : TheKind) → text.now ≡ kind_name k → ⊥) (λ k. text.now ≡ kind_name k) }
{
    if is(text, b"value") {
        Some(Kind::Value)
    } else if is(text, b"flow") {
        Some(Kind::Flow)
    } else if is(text, b"bounds") {
        Some(Kind::Bounds)
    } else if is(text, b"size") {
        Some(Kind::Size)
    } else if is(text, b"end") {
        Some(Kind::End)
    } else {
        None
    }
}
