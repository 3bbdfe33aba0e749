//! Made studies, for trying the suite on orders of any shape: [`make_study`] makes one from a seed, and
//! [`sample_text`] fits it, certifies the fit, has the checker verify the certificate, and tells the summary.
#![tactic(auto)]

mod extremes;
mod generator;
mod laws;
mod made;
mod name;
mod pairs;
mod row;
mod rows;
mod summary;
mod text;

pub use laws::samples_are_told_in_one_way;
pub use made::make_study;
pub use text::sample_text;
