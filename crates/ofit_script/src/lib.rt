//! Scripts: edits of a study, one a line, with lines between them that print the report or the sheet of
//! the study as it then stands. [`read_script`] reads one, [`run_script`] runs it in a session.
#![tactic(auto)]

mod fault;
mod field;
mod kind;
mod laws;
mod limits;
mod line;
mod piece;
mod print;
mod read;
mod record;
mod run;
mod script;

pub use fault::ScriptFault;
pub use laws::{scripts_are_read_in_one_way, scripts_run_in_one_way};
pub use limits::{MOST_LINES, MOST_PRINTS};
pub use line::Line;
pub use read::read_script;
pub use run::{run_line, run_script};
pub use script::Script;
