//! Sessions: a study with its fit, kept through edits. An edit fits anew the components that hold a
//! group that it touches; the values of all others are carried over by the names of their groups.
#![tactic(auto)]

mod anew;
mod carry;
mod refit;
mod session;
mod touch;

pub use anew::Touch;
pub use session::Session;
