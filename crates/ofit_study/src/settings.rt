use crate::loss::LossKind;

/// The loss, the decimal places of a value and the bounds of a fit.
#[derive(Clone, Copy, Debug, PartialEq, Eq)]
pub struct Settings {
    /// The loss.
    pub loss: LossKind,
    /// A unit is 10^(-places); from 0 to 6.
    pub places: u32,
    /// The least value that a fit may take, in units, at most 10^9 in absolute value.
    pub lo: Option<i64>,
    /// The greatest value that a fit may take, in units, at most 10^9 in absolute value.
    pub hi: Option<i64>,
}
