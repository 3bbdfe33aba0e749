ghost use Rattle.std.specs.Prelude.{◌≡◌, ◌↔◌, [], IsTrue};
ghost use Rattle.csv.specs.Records.{fields_of};
ghost use Rattle.ofit_study.specs.Study.{names_of};
ghost use Rattle.ofit_sheet.specs.declared.fields.Kind.TheVariants as the_kind;
ghost use Rattle.ofit_sheet.specs.Rules.{leading};
ghost use Rattle.ofit_sheet.specs.Steps.{KindRead, ItemRead};

use crate::bounds::read_bounds;
use crate::draft::Draft;
use crate::fault::RecordFault;
use crate::fields::{Fields, Kind, four_of, kind_of};
use crate::flow::read_flow;
use crate::item::Item;
use crate::numeral::is;
use crate::size::read_size;
use crate::value::read_value;
use csv::ByteRecord;
use ofit_study::Study;

/// How many records stand between the header and the values.
fn leading_count(sized: bool) -> u32
    ensures { result ≡ leading sized }
{
    if sized { 2 } else { 1 }
}

/// Whether no flow is read yet.
fn is_without_flows(draft: &Draft) -> bool
    ensures { IsTrue result ↔ (draft.now.flows.items ≡ []) }
{
    draft.flows.is_empty()
}

/// The bounds record, which comes first.
fn bounds_item(
    study: &Study,
    sized: bool,
    draft: &Draft,
    fields: &Fields<'_>,
) -> Result<Item, RecordFault>
    ensures { KindRead (names_of study.now) sized draft.now the_kind.Bounds
        fields.now.first.now fields.now.second.now fields.now.third.now result }
{
    if draft.count != 0 {
        return Err(RecordFault::Bad);
    }
    match read_bounds(fields.first, fields.second, fields.third) {
        Ok((lo, hi)) => Ok(Item::Bounds(lo, hi)),
        Err(fault) => Err(fault),
    }
}

/// The size record, which comes next in version 2.
fn size_item(
    study: &Study,
    sized: bool,
    draft: &Draft,
    fields: &Fields<'_>,
) -> Result<Item, RecordFault>
    ensures { KindRead (names_of study.now) sized draft.now the_kind.Size
        fields.now.first.now fields.now.second.now fields.now.third.now result }
{
    if !sized || draft.count != 1 {
        return Err(RecordFault::Bad);
    }
    match read_size(fields.first, fields.second, fields.third) {
        Ok(size) => Ok(Item::Size(size)),
        Err(fault) => Err(fault),
    }
}

/// A value, whose place is above those before it, and before which no flow stands.
fn value_item(
    study: &Study,
    sized: bool,
    draft: &Draft,
    fields: &Fields<'_>,
) -> Result<Item, RecordFault>
    ensures { KindRead (names_of study.now) sized draft.now the_kind.Value
        fields.now.first.now fields.now.second.now fields.now.third.now result }
{
    if draft.count < leading_count(sized) || !is_without_flows(draft) {
        return Err(RecordFault::Bad);
    }
    match read_value(
        study,
        draft.least,
        fields.first,
        fields.second,
        fields.third,
    ) {
        Ok(entry) => Ok(Item::Value(entry.0, entry.1)),
        Err(fault) => Err(fault),
    }
}

/// A flow.
fn flow_item(
    study: &Study,
    sized: bool,
    draft: &Draft,
    fields: &Fields<'_>,
) -> Result<Item, RecordFault>
    ensures { KindRead (names_of study.now) sized draft.now the_kind.Flow
        fields.now.first.now fields.now.second.now fields.now.third.now result }
{
    if draft.count < leading_count(sized) {
        return Err(RecordFault::Bad);
    }
    match read_flow(study, fields.first, fields.second, fields.third) {
        Ok((low, high, amount)) => Ok(Item::Flow(low, high, amount)),
        Err(fault) => Err(fault),
    }
}

/// The end.
fn end_item(
    study: &Study,
    sized: bool,
    draft: &Draft,
    fields: &Fields<'_>,
) -> Result<Item, RecordFault>
    ensures { KindRead (names_of study.now) sized draft.now the_kind.End
        fields.now.first.now fields.now.second.now fields.now.third.now result }
{
    let _study = study;
    if draft.count < leading_count(sized) {
        return Err(RecordFault::Bad);
    }
    if is(fields.first, b"-") && is(fields.second, b"-") && is(fields.third, b"-") {
        Ok(Item::End)
    } else {
        Err(RecordFault::Bad)
    }
}

/// What a record behind the header says.
pub(crate) fn item_of(
    study: &Study,
    sized: bool,
    draft: &Draft,
    row: &ByteRecord,
) -> Result<Item, RecordFault>
    ensures { ItemRead (names_of study.now) sized draft.now (fields_of row.now) result }
{
    let Some(fields) = four_of(row) else {
        return Err(RecordFault::Bad);
    };
    match kind_of(fields.kind) {
        None => Err(RecordFault::Bad),
        Some(Kind::Bounds) => bounds_item(study, sized, draft, &fields),
        Some(Kind::Size) => size_item(study, sized, draft, &fields),
        Some(Kind::Value) => value_item(study, sized, draft, &fields),
        Some(Kind::Flow) => flow_item(study, sized, draft, &fields),
        Some(Kind::End) => end_item(study, sized, draft, &fields),
    }
}
