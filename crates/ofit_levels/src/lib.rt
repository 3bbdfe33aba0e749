//! Level probabilities of order-restricted tests: how many of the k! orderings of k items have
//! exactly l left-to-right maxima. Over k! it is the chance that, with no order in truth, the
//! isotonic fit of a chain of k equal weights has l levels (Robertson, Wright and Dykstra, 1988).
#![tactic(auto)]

mod counts;
mod factorial;
mod text;

pub use counts::levels;
pub use text::level_text;
