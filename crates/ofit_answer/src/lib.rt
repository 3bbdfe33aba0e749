//! How a run of the program ends: its answer, the exit status and the line for the error output, and
//! the line of a verdict. The texts stand in `specs/`: `ErrorText` has the lines of answers,
//! `VerdictText` and `PeakVerdictText` those of verdicts.
#![tactic(auto)]

mod answer;
mod ending;
mod line;
mod message;
mod peak_verdict;
mod verdict;

pub use answer::{Answer, status};
pub use line::tell;
pub use peak_verdict::peak_verdict_line;
pub use verdict::verdict_line;
