//! The fit of an unknown peak under the median: [`fit_unimodal`] finds values that rise up to some peak
//! and fall from it, and cost least among all that do so, whatever their peak.
//!
//! The sides of a split are a rise of its first groups and a fall of the others. What they cost together
//! bounds each fit with a peak on one side of the split, and is the cost of one such fit. So the first of
//! the cheapest splits has the first best peak right behind it, and one umbrella is fitted.
#![tactic(auto)]

mod cost;
mod fault;
mod fit;
mod laws;
mod peak;
mod umbrella;

pub use fault::UnimodalFault;
pub use fit::fit_unimodal;
pub use laws::{joined_sides_have_a_peak, splits_bound_unimodal_trials};
pub use umbrella::umbrella_tree;
