//! Peaked sheets: the fit of an unknown peak with what certifies it. The format stands in `specs/`:
//! `PeakedText` is the text, `Slots` says what each record has to be, and `PeakedRead` which sheet or
//! which first fault records give.

mod cursor;
mod laws;
mod limits;
mod read;
mod record;
mod sheet;
mod side;
mod slope;
mod write;

pub use laws::{
    peaked_sheets_are_read_back, peaked_sheets_are_read_in_one_way,
    unimodal_trials_obey_the_umbrella,
};
pub use limits::{MOST_COST, MOST_PEAK_GROUPS};
pub use read::read_peaked;
pub use sheet::Peaked;
pub use side::Side;
pub use write::write_peaked;
