ghost use Rattle.std.specs.Prelude.{◌≢◌, [], All};
ghost use Rattle.ofit_num.specs.Fraction.{IsLowest};
ghost use Rattle.ofit_sample.specs.SampleText.{IsLeastOf, IsGreatestOf};

use ofit_num::Frac;

/// The least of some values.
pub(crate) fn least_of(values: &[Frac]) -> Frac
    requires some { values.now ≢ [] }
    requires lowest { All IsLowest values.now }
    ensures { IsLeastOf values.now result }
{
    let mut least = values[0];
    for value in values {
        if value.compare(&least).is_lt() {
            least = *value;
        }
    }
    least
}

/// The greatest of some values.
pub(crate) fn greatest_of(values: &[Frac]) -> Frac
    requires some { values.now ≢ [] }
    requires lowest { All IsLowest values.now }
    ensures { IsGreatestOf values.now result }
{
    let mut greatest = values[0];
    for value in values {
        if greatest.compare(value).is_lt() {
            greatest = *value;
        }
    }
    greatest
}
