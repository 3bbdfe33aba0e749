ghost use Rattle.std.specs.Prelude.{◌≤◌, ◌≤ℤ◌, ◌↔◌, ℕ, pos, IsTrue, MatchOption};
ghost use Rattle.ofit_study.specs.FieldRead.{IsNumberIn, ValueRead};
ghost use Rattle.ofit_study.specs.NumbersRead.{RowNumberRead, WeightRead};

use ofit_num::{MOST_UNITS, MOST_WEIGHT, NumFault, read_decimal, read_whole};
use thiserror::Error;

/// The text isn't a decimal of a whole number from 1 to 10^10.
#[derive(Clone, Copy, Debug, PartialEq, Eq, Error)]
#[error("bad weight")]
pub struct BadWeight;

/// The text isn't the canonical one of a whole number from 1 to 2^32 - 1.
#[derive(Clone, Copy, Debug, PartialEq, Eq, Error)]
#[error("bad row number")]
pub struct BadRow;

/// The value that a text gives, in units of 10^(-places), at most 10^9 of them in absolute value.
/// [`NumFault`] tells the first fault otherwise. Time linear in the text.
pub fn read_value(text: &[u8], places: u32) -> Result<i64, NumFault>
    requires { places ≤ 6 }
    ensures { ValueRead places text.now result }
{
    read_decimal(text, places, MOST_UNITS as i64)
}

/// Whether a number is at least 1.
fn is_positive(number: i64) -> bool
    ensures { IsTrue result ↔ (pos 1 ≤ℤ number) }
{
    number >= 1
}

/// The weight that a text gives: a whole number from 1 to 10^10 that a decimal spells. Time linear in
/// the text.
pub fn read_weight(text: &[u8]) -> Result<u64, BadWeight>
    ensures { WeightRead text.now result }
{
    match read_decimal(text, 0, MOST_WEIGHT as i64) {
        Ok(weight) => {
            if is_positive(weight) {
                Ok(weight as u64)
            } else {
                Err(BadWeight)
            }
        }
        Err(_) => Err(BadWeight),
    }
}

/// The whole number from `low` to `high` that a canonical text spells. Time linear in the text.
pub fn number_in(text: &[u8], low: u32, high: u32) -> Option<u32>
    ensures { MatchOption result ((n : ℕ) → IsNumberIn low high text.now n → ⊥) (λ n. IsNumberIn low high text.now n) }
{
    match read_whole(text, u128::from(high)) {
        Ok(number) => {
            if u128::from(low) <= number {
                Some(number as u32)
            } else {
                None
            }
        }
        Err(_) => None,
    }
}

/// The number of a row that a text gives: a canonical whole number from 1 to 2^32 - 1, which a study may
/// have or not. Time linear in the text.
pub fn read_row_number(text: &[u8]) -> Result<u32, BadRow>
    ensures { RowNumberRead text.now result }
{
    match number_in(text, 1, u32::MAX) {
        Some(number) => Ok(number),
        None => Err(BadRow),
    }
}
