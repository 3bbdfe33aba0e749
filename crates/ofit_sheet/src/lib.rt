//! Printed sheets: the values of a fit with the flows that certify them, as records of comma-separated
//! fields. [`write_sheet`] writes the text of a [`Sheet`], [`read_sheet`] reads it, both in time linear
//! in the text. A sheet with a [`Size`] is written as version 2 of the format, one without as version
//! 1; both are read. The format stands in `specs/`: `SheetText` is the text of a sheet, `Spelling` and
//! `Rules` say what each record may be, and `SheetRead` which sheet or which first fault records give.
#![tactic(auto)]

mod bounds;
mod draft;
mod fault;
mod fields;
mod flow;
mod header;
mod item;
mod items;
mod laws;
mod numeral;
mod peaked;
mod place;
mod read;
mod sheet;
mod size;
mod value;
mod write;

pub use fault::SheetFault;
pub use laws::{sheets_are_read_back, sheets_are_read_in_one_way};
pub use peaked::{
    MOST_COST, MOST_PEAK_GROUPS, Peaked, Side, peaked_sheets_are_read_back,
    peaked_sheets_are_read_in_one_way, read_peaked, unimodal_trials_obey_the_umbrella,
    write_peaked,
};
pub use read::read_sheet;
pub use sheet::Sheet;
pub use size::Size;
pub use write::write_sheet;
