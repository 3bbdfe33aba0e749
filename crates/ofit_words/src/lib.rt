//! The words of a call: a command, its names and its settings, read as a job or as the first fault.
#![tactic(auto)]

mod command;
mod compare;
mod fault;
mod given;
mod job;
mod key;
mod laws;
mod read;
mod setting;
mod settings;
mod text;
mod value;

pub use command::Command;
pub use fault::WordFault;
pub use job::{Inputs, Job, Kind, OrderChoice, SampleJob};
pub use key::Key;
pub use laws::words_have_one_reading;
pub use read::read_words;
pub use text::Text;
