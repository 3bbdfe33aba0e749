//! The suite's one top call: from the words of the command line and the bytes of the named files
//! to the bytes of the output.
#![tactic(auto)]

mod fit;
mod job;
mod laws;
mod levels;
mod output;
mod printed;
mod report;
mod sample;
mod session;
mod top;
mod unimodal;
mod verify;
mod verify_unimodal;

pub use laws::{accepted_inputs_are_answered, fits_are_verified, runs_end_in_one_way};
pub use ofit_answer::{Answer, status};
pub use ofit_input::{Refusal, Which};
pub use top::run;
