ghost use Rattle.std.specs.Prelude.{◌≡◌};
ghost use Rattle.ofit_answer.specs.declared.answer.Answer.TheVariants.{Memory, WriteFault};
ghost use Rattle.ofit_answer.specs.Endings.{word_answer, stop_answer};

use crate::answer::Answer;
use ofit_input::Stop;
use ofit_outside::PutFault;
use ofit_words::WordFault;
use std::alloc::AllocError;

impl From<WordFault> for Answer {
    ghost from_gives = { λ fault answer. answer ≡ word_answer fault };

    fn from(fault: WordFault) -> Self {
        match fault {
            WordFault::Memory => Answer::Memory,
            fault => Answer::Words(fault),
        }
    }
}

impl From<Stop> for Answer {
    ghost from_gives = { λ stop answer. answer ≡ stop_answer stop };

    fn from(stop: Stop) -> Self {
        match stop {
            Stop::Refused(refusal) => Answer::Refused(refusal),
            Stop::ReadFault => Answer::ReadFault,
            Stop::Memory => Answer::Memory,
        }
    }
}

impl From<AllocError> for Answer {
    ghost from_gives = { λ _ answer. answer ≡ Memory };

    fn from(_: AllocError) -> Self {
        Answer::Memory
    }
}

impl From<PutFault> for Answer {
    ghost from_gives = { λ _ answer. answer ≡ WriteFault };

    fn from(_: PutFault) -> Self {
        Answer::WriteFault
    }
}
