ghost use Rattle.std.specs.Prelude.{◌≡◌};
ghost use Rattle.ofit_answer.specs.Status.{status_of};

use ofit_check::{PeakVerdict, Verdict};
use ofit_input::Refusal;
use ofit_words::WordFault;

/// How a run ended.
#[derive(Clone, Copy, Debug, PartialEq, Eq)]
pub enum Answer {
    /// The whole output was written.
    Done,
    /// The whole output was written: the verdict on a sheet that doesn't pass.
    Fails(Verdict),
    /// The whole output was written: the verdict on a peaked sheet that doesn't pass.
    FailsPeak(PeakVerdict),
    /// The words of the call have a fault, and nothing was written.
    Words(WordFault),
    /// The inputs were refused, and nothing was written.
    Refused(Refusal),
    /// The folder failed, and nothing was written.
    ReadFault,
    /// The output failed, and a first part of the text was written.
    WriteFault,
    /// Memory was wanting, and nothing was written.
    Memory,
}

/// The exit status of an answer.
pub fn status(answer: &Answer) -> u8
    ensures { result ≡ status_of answer.now }
{
    match answer {
        Answer::Done => 0,
        Answer::Fails(_) | Answer::FailsPeak(_) => 1,
        Answer::Words(_) => 2,
        Answer::Refused(_) => 3,
        Answer::ReadFault => 4,
        Answer::WriteFault => 5,
        Answer::Memory => 6,
    }
}
