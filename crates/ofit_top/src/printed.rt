use ofit_answer::Answer;

/// What a job answers, and the text that goes with it.
#[derive(Drop)]
pub(crate) struct Printed {
    pub(crate) answer: Answer,
    pub(crate) text: Vec<u8>,
}
