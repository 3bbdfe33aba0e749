//! Certificates of optimal fits: flows along pairs of equal values by which a checker sees that values
//! are optimal.
//!
//! [`certify`] makes the sheet of the values of an optimal fit. Flows along pairs show that values are
//! optimal (Robertson, Wright and Dykstra, Order Restricted Statistical Inference, 1988, chapter 1),
//! and optimal values have such flows by Hoffman's circulation theorem (1960).
#![tactic(auto)]

mod certificate;
mod entries;
mod flows;
mod laws;
mod spans;

pub use certificate::certify;
pub use laws::best_values_are_not_barred;
