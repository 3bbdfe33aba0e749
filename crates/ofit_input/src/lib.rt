//! The inputs of a run: what a job works on, read from the files that its words name; or the first
//! refusal.
#![tactic(auto)]

mod fetch;
mod laws;
mod order;
mod peak;
mod peaked;
mod ready;
mod refusal;
mod script;
mod sheet;
mod stop;
mod study;
mod table;

pub use laws::inputs_are_given_in_one_way;
pub use ready::{Ready, ready_from};
pub use refusal::{Refusal, Which};
pub use stop::Stop;
