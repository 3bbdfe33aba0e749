//! Records of comma-separated texts, over the crate csv: tables, order files, sheets and scripts are read
//! and written through it. Commas between fields, double quotes, nothing trimmed, records of any length,
//! no header set apart, and no byte order mark at the front.
#![tactic(auto)]

mod fields;
mod laws;
mod marks;
mod reader;
mod writer;

pub use fields::field_of;
pub use laws::written_records_are_read_back;
pub use reader::Records;
pub use writer::RecordWriter;
