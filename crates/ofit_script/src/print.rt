ghost use Rattle.std.specs.Prelude.{◌≡◌, ◌≢◌, ◌++◌, List, ℕ, OnErr, OnOk};
ghost use Rattle.ofit_study.specs.declared.fault.EditFault.TheVariants.{Memory};
ghost use Rattle.ofit_script.specs.LineText.{refitted_text, refusal_text, refused_text};
ghost use Rattle.ofit_script.specs.ScriptGives.{PrintsReport, PrintsSheet};

use crate::piece::append_all;
use itoa::Buffer;
use ofit_session::{Session, Touch};
use ofit_sheet::{sheets_are_read_back, write_sheet};
use ofit_study::{EditFault, End};
use std::alloc::AllocError;

/// Why an edit is refused.
fn refusal(fault: EditFault) -> &'static [u8]
    ensures { result.now ≡ refusal_text fault }
{
    match fault {
        EditFault::NoRow => b"no row",
        EditFault::GroupInUse => b"group in use",
        EditFault::NoGroup(End::Low) => b"no group low",
        EditFault::NoGroup(End::High) => b"no group high",
        EditFault::PairPresent => b"pair present",
        EditFault::PairAbsent => b"pair absent",
        EditFault::TooManyRows => b"too many rows",
        EditFault::TooHeavy => b"total weight too large",
        EditFault::TooManyGroups => b"too many groups",
        EditFault::TooManyPairs => b"too many pairs",
        EditFault::Memory => b"out of memory",
    }
}

/// Appends the line of an edit that the study takes. After want of memory the text is as before.
pub(crate) fn append_refitted(
    into: &mut Vec<u8>,
    number: u32,
    touch: Touch,
) -> Result<(), AllocError>
    ensures ok { OnOk result (into.new.items ≡ into.old.items ++ refitted_text number touch.refitted touch.components) }
    ensures err { OnErr result (into.new.items ≡ into.old.items) }
{
    let mut line = Buffer::new();
    let mut refitted = Buffer::new();
    let mut components = Buffer::new();
    let pieces: [&[u8]; 7] = [
        b"line ",
        line.format(number).as_bytes(),
        b": refitted ",
        refitted.format(touch.refitted).as_bytes(),
        b" of ",
        components.format(touch.components).as_bytes(),
        b"\n",
    ];
    append_all(into, &pieces)
}

/// Appends the line of an edit that the study refuses, which want of memory does not. After it the text is
/// as before.
pub(crate) fn append_refused(
    into: &mut Vec<u8>,
    number: u32,
    fault: EditFault,
) -> Result<(), AllocError>
    ensures other { OnOk result (fault ≢ Memory) }
    ensures ok { OnOk result (into.new.items ≡ into.old.items ++ refused_text number fault) }
    ensures err { OnErr result (into.new.items ≡ into.old.items) }
{
    if let EditFault::Memory = fault {
        return Err(AllocError);
    }
    let mut line = Buffer::new();
    let pieces: [&[u8]; 5] = [
        b"line ",
        line.format(number).as_bytes(),
        b": refused ",
        refusal(fault),
        b"\n",
    ];
    append_all(into, &pieces)?;
    Ok(())
}

/// Appends the report of the session's study. After want of memory the text is as before.
pub(crate) fn append_report(
    into: &mut Vec<u8>,
    number: u32,
    session: &Session,
) -> Result<(), AllocError>
    ensures ok { OnOk result ((text : List ℕ) × PrintsReport number session.now.study session.now.study text 0 × (into.new.items ≡ into.old.items ++ text)) }
    ensures err { OnErr result (into.new.items ≡ into.old.items) }
{
    let report = session.report()?;
    let _study = session.study();
    let mut line = Buffer::new();
    let pieces: [&[u8]; 4] = [
        b"line ",
        line.format(number).as_bytes(),
        b": report\n",
        report.as_slice(),
    ];
    append_all(into, &pieces)
}

/// Appends a sheet of the session's study. After want of memory the text is as before.
pub(crate) fn append_sheet(
    into: &mut Vec<u8>,
    number: u32,
    session: &Session,
) -> Result<(), AllocError>
    ensures ok { OnOk result ((text : List ℕ) × PrintsSheet number session.now.study session.now.study text 0 × (into.new.items ≡ into.old.items ++ text)) }
    ensures err { OnErr result (into.new.items ≡ into.old.items) }
{
    sheets_are_read_back();
    let sheet = session.sheet()?;
    let _settings = sheet.settings();
    let text = write_sheet(*into.allocator(), session.study(), &sheet)?;
    let mut line = Buffer::new();
    let pieces: [&[u8]; 4] = [
        b"line ",
        line.format(number).as_bytes(),
        b": sheet\n",
        text.as_slice(),
    ];
    append_all(into, &pieces)
}
