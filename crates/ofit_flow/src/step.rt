//! A step of a path.

/// A step along an edge: the edge's number, the nodes that it leads from and to, and how much more
/// the edge can carry that way.
#[derive(Clone, Copy)]
pub(crate) struct Step {
    pub(crate) edge: u32,
    pub(crate) from: u32,
    pub(crate) to: u32,
    pub(crate) room: i128,
}
