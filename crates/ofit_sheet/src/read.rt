ghost use Rattle.std.specs.Prelude.{◌≡◌, ◌+◌, ◌≤◌, ◌<◌, ◌^◌, ℕ, List, IfOk, length};
ghost use Rattle.csv.specs.Records.{fields_of};
ghost use Rattle.ofit_num.specs.declared.limits.TheConstants.{LONGEST_FILE};
ghost use Rattle.ofit_num.specs.Sheet.{FitsCount};
ghost use Rattle.ofit_records.specs.Records.{records_of};
ghost use Rattle.ofit_study.specs.Study.{names_of};
ghost use Rattle.ofit_sheet.specs.declared.item.Item.{Item as TheItem};
ghost use Rattle.ofit_study.specs.Settings.{InLimits};
ghost use Rattle.ofit_sheet.specs.Made.{ArePartsOfSheet};
ghost use Rattle.ofit_sheet.specs.Parts.{sheet_of};
ghost use Rattle.ofit_sheet.specs.SheetRead.{SheetRead, settings_of};
ghost use Rattle.ofit_sheet.specs.Steps.{Follows, HeaderRead, RowRead, RestRead};

use crate::draft::{Draft, empty_draft, with_item};
use crate::fault::{RecordFault, SheetFault};
use crate::header::{Header, header_of};
use crate::items::item_of;
use crate::sheet::Sheet;
use csv::ByteRecord;
use ofit_records::Records;
use ofit_study::{Settings, Study};
use std::alloc::Global;

/// The draft with the next record.
fn with_row(study: &Study, sized: bool, draft: Draft, row: &ByteRecord) -> Result<Draft, SheetFault>
    requires { draft.count + 2 < 2 ^ 32 }
    ensures { (rows : List (List (List ℕ))) (items : List TheItem) → Follows (names_of study.now) sized rows items draft
        → RowRead (names_of study.now) sized items (fields_of row.now) result }
{
    let number = draft.count + 2;
    if draft.has_ended {
        return Err(SheetFault::AfterEnd(number));
    }
    match item_of(study, sized, &draft, row) {
        Ok(item) => match with_item(draft, item) {
            Ok(after) => Ok(after),
            Err(_) => Err(SheetFault::Memory),
        },
        Err(RecordFault::Bad) => Err(SheetFault::BadRecord(number)),
        Err(RecordFault::TooLarge) => Err(SheetFault::NumberTooLarge(number)),
    }
}

/// What the records behind the header tell.
fn read_rest(
    alloc: Global,
    study: &Study,
    sized: bool,
    records: &mut Records<'_>,
) -> Result<Draft, SheetFault>
    requires { length records.old + 2 < 2 ^ 32 }
    ensures { RestRead (names_of study.now) sized records.old result }
{
    let mut row = ByteRecord::new(alloc);
    let mut draft = empty_draft(alloc);
    loop {
        match records.read_next(&mut row) {
            Err(_) => return Err(SheetFault::Memory),
            Ok(false) => return Ok(draft),
            Ok(true) => {}
        }
        match with_row(study, sized, draft, &row) {
            Ok(after) => draft = after,
            Err(fault) => return Err(fault),
        }
    }
}

/// Record 1, which is to be a header.
fn read_header(alloc: Global, records: &mut Records<'_>) -> Result<Header, SheetFault>
    ensures { HeaderRead records.old records.new result }
{
    let mut row = ByteRecord::new(alloc);
    match records.read_next(&mut row) {
        Err(_) => Err(SheetFault::Memory),
        Ok(false) => Err(SheetFault::BadHeader),
        Ok(true) => match header_of(&row) {
            None => Err(SheetFault::BadHeader),
            Some(head) => Ok(head),
        },
    }
}

/// The settings of a header and the bounds record behind it.
fn settings_from(head: Header, bounds: Option<(Option<i64>, Option<i64>)>) -> Settings
    ensures { result ≡ settings_of head bounds }
{
    let (lo, hi) = match bounds {
        Some(bounds) => bounds,
        None => (None, None),
    };
    Settings {
        loss: head.loss,
        places: head.places,
        lo,
        hi,
    }
}

/// The sheet of a header and of what the records behind it told.
fn sheet_from(head: Header, draft: Draft) -> Sheet
    requires settings { InLimits (settings_of head draft.bounds) }
    requires parts { ArePartsOfSheet draft.size draft.values.items draft.flows.items }
    requires values { length draft.values.items < 2 ^ 32 }
    requires flows { length draft.flows.items < 2 ^ 32 }
    ensures { result ≡ sheet_of (settings_of head draft.bounds) draft.size draft.values.items draft.flows.items }
{
    let settings = settings_from(head, draft.bounds);
    match Sheet::make(settings, draft.size, draft.values, draft.flows) {
        Some(sheet) => sheet,
        None => unreachable!(),
    }
}

/// The sheet that records spell.
fn read_records(
    alloc: Global,
    study: &Study,
    records: &mut Records<'_>,
) -> Result<Sheet, SheetFault>
    requires { length records.old + 2 < 2 ^ 32 }
    ensures read { SheetRead (names_of study.now) records.old result }
    ensures fits { IfOk result (FitsCount (length (names_of study.now))) }
{
    let head = match read_header(alloc, records) {
        Err(fault) => return Err(fault),
        Ok(head) => head,
    };
    let draft = match read_rest(alloc, study, head.sized, records) {
        Err(fault) => return Err(fault),
        Ok(draft) => draft,
    };
    if !draft.has_ended {
        return Err(SheetFault::NoEnd);
    }
    Ok(sheet_from(head, draft))
}

/// The sheet that bytes of either version spell, for the study that names the groups, or their first
/// fault. Expected time linear in the bytes, and memory linear in the sheet and its longest record.
pub fn read_sheet(alloc: Global, bytes: &[u8], study: &Study) -> Result<Sheet, SheetFault>
    requires { length bytes.now ≤ LONGEST_FILE }
    ensures read { SheetRead (names_of study.now) (records_of bytes.now) result }
    ensures fits { IfOk result (FitsCount (length (names_of study.now))) }
{
    let mut records = match Records::new(alloc, bytes) {
        Ok(records) => records,
        Err(_) => return Err(SheetFault::Memory),
    };
    read_records(alloc, study, &mut records)
}
