//! The fit of a study: component by component, each by the form of its order.
#![tactic(auto)]

mod chain;
mod clip;
mod component;
mod general;
mod laws;
mod links;
mod members;
mod study;
mod tree;
mod values;

pub use component::fit_component;
pub use laws::fits_compose;
pub use study::fit_study;
pub use values::put_values;
