ghost use Rattle.std.specs.Prelude.{◌≡◌, ◌≤◌, ◌<◌, ◌+◌, ◌^◌, ◌⊎◌, ℕ, IfNone, IfOk, OnErr, OnOk, length};
ghost use Rattle.ofit_study.specs.EditLimits.{IsEditInLimits};
ghost use Rattle.ofit_session.specs.CountsAtMost.{CountsAtMost};
ghost use Rattle.ofit_script.specs.declared.line.Line.TheVariants.{Change};
ghost use Rattle.ofit_script.specs.ScriptGives.{ScriptFits, ScriptGives};
ghost use Rattle.ofit_script.specs.Runs.{CountsLine, IsBehind, IsRun, RanInPart, Touches, line_at};

use crate::line::Line;
use crate::print::{append_refitted, append_refused, append_report, append_sheet};
use crate::script::Script;
use ofit_num::Tally;
use ofit_session::{Session, Touch};
use ofit_study::Edit;
use std::alloc::AllocError;

/// Runs a line that is an edit.
fn run_edit(
    session: &mut Session,
    edit: &Edit,
    number: u32,
    into: &mut Vec<u8>,
    tally: &mut Tally,
) -> Result<Option<Touch>, AllocError>
    requires edit { IsEditInLimits edit.now }
    requires room { tally.old.fits ≤ 2 ^ 63 + 2 ^ 32 }
    requires room_for_cuts { tally.old.cuts ≤ 2 ^ 63 + 2 ^ 32 }
    ensures run { OnOk result (IsRun number session.old.study (Change edit.now) session.new.study into.old.items into.new.items tally.old tally.new) }
    ensures touches { IfOk result (Touches session.old.study (Change edit.now) session.new.study tally.old tally.new) }
    ensures stays { IfOk result (λ touch. IfNone touch (session.new ≡ session.old)) }
    ensures few { OnOk result (tally.new.fits ≤ tally.old.fits + 2) }
    ensures stops { OnErr result (((session.new ≡ session.old) × CountsAtMost session.old.study edit.now tally.old tally.new)
        ⊎ IsBehind number session.old.study (Change edit.now) session.new.study tally.old tally.new) }
    ensures silent { OnErr result (into.new.items ≡ into.old.items) }
    ensures grown { tally.old.fits ≤ tally.new.fits }
    ensures grown_cuts { tally.old.cuts ≤ tally.new.cuts }
    ensures fewer_cuts { tally.new.cuts + tally.old.fits ≤ tally.old.cuts + tally.new.fits }
{
    session.study().keeps_limits();
    match session.apply(edit, tally) {
        Ok(touch) => {
            append_refitted(into, number, touch)?;
            Ok(Some(touch))
        }
        Err(fault) => {
            append_refused(into, number, fault)?;
            Ok(None)
        }
    }
}

/// Runs a line of a script, and appends its text. What the edit fitted anew is told where the line is an
/// edit that the study takes; any other line changes nothing of the session, and the tally stays.
///
/// After want of memory the text is as before, the session stands before the line or behind it, and the
/// tally counts at most what the line fits.
pub fn run_line(
    session: &mut Session,
    script: &Script,
    index: u32,
    into: &mut Vec<u8>,
    tally: &mut Tally,
) -> Result<Option<Touch>, AllocError>
    requires index { index < length script.now }
    requires room { tally.old.fits ≤ 2 ^ 63 + 2 ^ 32 }
    requires room_for_cuts { tally.old.cuts ≤ 2 ^ 63 + 2 ^ 32 }
    ensures run { OnOk result (IsRun (index + 1) session.old.study (line_at script.now index) session.new.study into.old.items into.new.items tally.old tally.new) }
    ensures touches { IfOk result (Touches session.old.study (line_at script.now index) session.new.study tally.old tally.new) }
    ensures stays { IfOk result (λ touch. IfNone touch (session.new ≡ session.old)) }
    ensures few { OnOk result (tally.new.fits ≤ tally.old.fits + 2) }
    ensures stops { OnErr result (((session.new ≡ session.old) × CountsLine session.old.study (line_at script.now index) tally.old tally.new)
        ⊎ IsBehind (index + 1) session.old.study (line_at script.now index) session.new.study tally.old tally.new) }
    ensures silent { OnErr result (into.new.items ≡ into.old.items) }
    ensures grown { tally.old.fits ≤ tally.new.fits }
    ensures grown_cuts { tally.old.cuts ≤ tally.new.cuts }
    ensures fewer_cuts { tally.new.cuts + tally.old.fits ≤ tally.old.cuts + tally.new.fits }
{
    let count = script.count();
    prove!(index < count);
    let number = index + 1;
    match script.line(index) {
        Line::Change(edit) => run_edit(session, edit, number, into, tally),
        Line::Report => {
            append_report(into, number, session)?;
            Ok(None)
        }
        Line::Sheet => {
            append_sheet(into, number, session)?;
            Ok(None)
        }
    }
}

/// Runs the lines of a script one after the other, and gives their text. The tally counts each component
/// that an edit fits anew.
///
/// After want of memory the session stands behind some first part of the lines, and the tally counts at
/// most what the script fits.
pub fn run_script(
    session: &mut Session,
    script: &Script,
    tally: &mut Tally,
) -> Result<Vec<u8>, AllocError>
    requires room { tally.old.fits ≤ 2 ^ 63 + 2 ^ 31 }
    requires room_for_cuts { tally.old.cuts ≤ 2 ^ 63 + 2 ^ 31 }
    ensures gives { IfOk result (λ text. (n : ℕ) × ScriptGives 1 session.old.study script.now session.new.study text.items n × (tally.new.fits ≡ tally.old.fits + n)) }
    ensures part { OnErr result (RanInPart session.old.study script.now session.new.study tally.old tally.new) }
    ensures limited { OnErr result ((n : ℕ) → ScriptFits session.old.study script.now n → tally.new.fits ≤ tally.old.fits + n) }
    ensures grown { tally.old.fits ≤ tally.new.fits }
    ensures grown_cuts { tally.old.cuts ≤ tally.new.cuts }
    ensures fewer_cuts { tally.new.cuts + tally.old.fits ≤ tally.old.cuts + tally.new.fits }
{
    session.study().keeps_limits();
    let mut text = Vec::new(script.allocator());
    for index in 0..script.count() {
        run_line(session, script, index, &mut text, tally)?;
    }
    Ok(text)
}
