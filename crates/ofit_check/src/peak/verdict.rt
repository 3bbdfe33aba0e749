/// What is wrong with a peaked sheet, the first thing that is. Places count from 0.
#[derive(Clone, Copy, Debug, PartialEq, Eq)]
pub enum PeakVerdict {
    /// The decimal places aren't the study's.
    Settings,
    /// The value of the group at this place, the first such one, and the next one don't rise before the
    /// peak or fall from it on.
    Shape(u32),
    /// The cost of the values isn't the printed one.
    Cost,
    /// The rise of so many groups, the first such one, breaks a rule of sides, first at the group of this
    /// place.
    Rise(u32, u32),
    /// The fall from this place on, the first such one, breaks a rule of sides, first at the group of the
    /// second place.
    Fall(u32, u32),
    /// The rise of so many groups, the first such one, and the fall of the others cost together less
    /// than is printed.
    NotLeast(u32),
    /// Nothing is wrong.
    Passes,
}
