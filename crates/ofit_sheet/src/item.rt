use crate::size::Size;
use ofit_num::Frac;

/// What a record behind the header says.
#[derive(Clone, Copy)]
pub(crate) enum Item {
    /// The bounds of the fit, in units.
    Bounds(Option<i64>, Option<i64>),
    /// How much data the sheet was made from.
    Size(Size),
    /// The place of a group and its value.
    Value(u32, Frac),
    /// The low place, the high place and the amount of a flow.
    Flow(u32, u32, i128),
    /// The end.
    End,
}
