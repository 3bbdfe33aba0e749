/// The way in which values go along a rooted tree.
#[derive(Clone, Copy)]
pub enum Direction {
    /// Each group's value is at most its parent's.
    RootGreatest,
    /// Each group's value is at least its parent's.
    RootLeast,
}
