ghost use Rattle.std.specs.Prelude.{◌≡◌, ◌<◌, length, Some, slice_get};

use std::marker::Model;

/// A side of a peaked sheet, of the first or of the last groups: for each of them a value and an amount.
/// In the sheet of a fit it is a chain fit with the amounts that certify it.
#[derive(Drop)]
pub struct Side {
    steps: Vec<(i64, i128)>,
}

impl Model for Side {
    ghost use Rattle.std.specs.Prelude.{ℤ, List};

    ghost Value = { List (ℤ × ℤ) };

    ghost view = { λ s. s.steps.items };
}

impl Side {
    /// The side of these steps, each of them a value and an amount.
    pub fn make(steps: Vec<(i64, i128)>) -> Side
        ensures { result ≡ steps.items }
    {
        Side { steps }
    }

    /// The value and the amount at this index.
    pub fn step(&self, index: u32) -> (i64, i128)
        requires { index < length self.now }
        ensures { slice_get self.now index ≡ Some result }
    {
        self.steps[index as usize]
    }

    /// All steps.
    pub(crate) fn steps(&self) -> &[(i64, i128)]
        ensures { result.now ≡ self.now }
    {
        self.steps.as_slice()
    }
}
