ghost use Rattle.std.specs.Prelude.{◌≡◌, ◌≤◌, ◌^◌, IfOk, IfErr, OnOk};
ghost use Rattle.ofit_input.specs.Fitting.{IsFitting};
ghost use Rattle.ofit_answer.specs.Tells.{sink, Tells};
ghost use Rattle.ofit_top.specs.State.{state};
ghost use Rattle.ofit_top.specs.Run.{texts, AskFor, Writes, CountsFits, CountsRead, CountsWrite};
ghost use Rattle.ofit_top.specs.Steps.{either, Prints, Ends, EndsUnread, EndsUnwritten};

use crate::job::do_job;
use crate::output::put_text;
use crate::printed::Printed;
use ofit_answer::{Answer, tell};
use ofit_input::{Ready, ready_from};
use ofit_num::Tally;
use ofit_outside::{Folder, Sink};
use ofit_words::read_words;
use std::alloc::Global;

/// The answer, whichever way it came.
fn answer_of(ended: Result<Answer, Answer>) -> Answer
    ensures { result ≡ either ended }
{
    match ended {
        Ok(answer) | Err(answer) => answer,
    }
}

/// What the words ask for, with its files read, or the answer of a run that ends before.
fn ready_words<F: Folder>(alloc: Global, words: &[String], folder: &mut F) -> Result<Ready, Answer>
    ensures ready { IfOk result (λ ready. AskFor (texts words.now) (F.held folder.old) ready) }
    ensures fits { IfOk result IsFitting }
    ensures ends { IfErr result (λ answer. EndsUnread (texts words.now) (F.held folder.old) (F.faults folder.old) (F.faults folder.new) answer) }
    ensures stays { OnOk result (F.faults folder.new ≡ F.faults folder.old) }
    ensures held { F.held folder.new ≡ F.held folder.old }
{
    let job = read_words(alloc, words)?;
    let ready = ready_from(alloc, folder, &job)?;
    Ok(ready)
}

/// What the words ask for, done up to its text, or the answer of a run that ends before.
fn print_words<F: Folder>(
    alloc: Global,
    words: &[String],
    folder: &mut F,
    tally: &mut Tally,
) -> Result<Printed, Answer>
    requires room { tally.old.fits ≤ 2 ^ 63 }
    requires room_for_cuts { tally.old.cuts ≤ 2 ^ 63 }
    ensures prints { IfOk result (λ printed. Prints (texts words.now) (F.held folder.old) tally.old tally.new printed.answer printed.text.items) }
    ensures ends { IfErr result (λ answer. EndsUnwritten (texts words.now) (F.held folder.old) (F.faults folder.old) (F.faults folder.new) tally.old tally.new answer) }
    ensures stays { OnOk result (F.faults folder.new ≡ F.faults folder.old) }
    ensures held { F.held folder.new ≡ F.held folder.old }
{
    let ready = ready_words(alloc, words, folder)?;
    let printed = do_job(alloc, ready, tally)?;
    Ok(printed)
}

/// Does what the words ask for. What a job answers is Ok, and what ends a run before is an error.
fn do_words<F: Folder, O: Sink>(
    alloc: Global,
    words: &[String],
    folder: &mut F,
    out: &mut O,
    tally: &mut Tally,
) -> Result<Answer, Answer>
    requires room { tally.old.fits ≤ 2 ^ 63 }
    requires room_for_cuts { tally.old.cuts ≤ 2 ^ 63 }
    ensures ends { Ends (texts words.now)
        (state (F.held folder.old) (F.faults folder.old) (O.written out.old) (O.faults out.old) tally.old)
        (state (F.held folder.new) (F.faults folder.new) (O.written out.new) (O.faults out.new) tally.new)
        (either result) }
    ensures held { F.held folder.new ≡ F.held folder.old }
{
    let printed = print_words(alloc, words, folder, tally)?;
    put_text(out, printed.text.as_slice())?;
    Ok(printed.answer)
}

/// Does what the words ask for, one of the eight commands: reads the named files from the folder, does the command's
/// work on them, and writes the output to `out`. A run that is refused, or that folder, output or memory ends, tells why
/// in one line on `err`; a failing `err` changes no answer.
///
/// The whole output is made before any of it is written; it is put in pieces of 4,096 bytes. The tally
/// counts each component of an order that is fitted.
pub fn run<F: Folder, O: Sink, E: Sink>(
    alloc: Global,
    words: &[String],
    folder: &mut F,
    out: &mut O,
    err: &mut E,
    tally: &mut Tally,
) -> Answer
    requires room { tally.old.fits ≤ 2 ^ 63 }
    requires room_for_cuts { tally.old.cuts ≤ 2 ^ 63 }
    // The output is what the words ask for: the sheet of the least best fit or its report, the sheet of the best fit of
    // all peaks, the verdict on a sheet, what a script prints, a level table, or the summary of a made study. It is
    // written whole; a part of it, where the output fails; or nothing, where the run ends before.
    ensures written { Writes (texts words.now)
        (state (F.held folder.old) (F.faults folder.old) (O.written out.old) (O.faults out.old) tally.old)
        (state (F.held folder.new) (F.faults folder.new) (O.written out.new) (O.faults out.new) tally.new)
        result }
    // Fits, reports, samples and sessions count each component of their study, and a session each that an edit touches
    // besides. Nothing else is counted.
    ensures counted { CountsFits (texts words.now)
        (state (F.held folder.old) (F.faults folder.old) (O.written out.old) (O.faults out.old) tally.old)
        (state (F.held folder.new) (F.faults folder.new) (O.written out.new) (O.faults out.new) tally.new)
        result }
    // A read fault is answered where the folder has failed, and nowhere else.
    ensures reads { CountsRead
        (state (F.held folder.old) (F.faults folder.old) (O.written out.old) (O.faults out.old) tally.old)
        (state (F.held folder.new) (F.faults folder.new) (O.written out.new) (O.faults out.new) tally.new)
        result }
    // A write fault is answered where the output has failed, and nowhere else.
    ensures puts { CountsWrite
        (state (F.held folder.old) (F.faults folder.old) (O.written out.old) (O.faults out.old) tally.old)
        (state (F.held folder.new) (F.faults folder.new) (O.written out.new) (O.faults out.new) tally.new)
        result }
    // A run that is refused, or that folder, output or memory ends, says so on `err`, in one line.
    ensures tells { Tells (sink (E.written err.old) (E.faults err.old)) (sink (E.written err.new) (E.faults err.new)) result }
    // The files stay as they are.
    ensures held { F.held folder.new ≡ F.held folder.old }
{
    let answer = answer_of(do_words(alloc, words, folder, out, tally));
    tell(err, &answer);
    answer
}
