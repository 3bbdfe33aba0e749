use crate::name::Name;

/// An order that the groups of a study tell by their own order.
#[derive(Drop)]
pub enum Pattern {
    /// No group is related to another.
    NoPairs,
    /// Each group is at most the next one.
    Chain,
    /// The groups rise up to the named one, and fall from it.
    Umbrella(Name),
    /// The named group is at most each other one.
    Tree(Name),
}
