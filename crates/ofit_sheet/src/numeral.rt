ghost use Rattle.std.specs.Prelude.{◌≡◌, ◌↔◌, ◌≤◌, ◌≤ℤ◌, ◌^◌, ◌∷◌, ℕ, ℤ, List, MatchOption, IsTrue, unsigned_abs};
ghost use Rattle.ofit_num.specs.NumberText.{IsWhole, IsSigned};
ghost use Rattle.ofit_sheet.specs.Reading.{IsReading, both_of};

use crate::fault::RecordFault;
use ofit_num::{WholeFault, read_signed, read_whole};
use std::cmp::Ordering;

/// Whether both texts are the same.
pub(crate) fn is(text: &[u8], other: &[u8]) -> bool
    ensures { IsTrue result ↔ (text.now ≡ other.now) }
{
    text == other
}

/// The whole number of a text.
pub(crate) fn read_count(text: &[u8], limit: u128) -> Result<u128, RecordFault>
    ensures { IsReading (λ n. IsWhole text.now n) (λ n. n ≤ limit) result }
{
    match read_whole(text, limit) {
        Ok(number) => Ok(number),
        Err(WholeFault::NotWhole) => Err(RecordFault::Bad),
        Err(WholeFault::TooLarge) => Err(RecordFault::TooLarge),
    }
}

/// The whole number of a text, from 1.
pub(crate) fn read_positive(text: &[u8], limit: u128) -> Result<u128, RecordFault>
    ensures { IsReading (λ n. IsWhole text.now n × (1 ≤ n)) (λ n. n ≤ limit) result }
{
    match read_count(text, limit) {
        Ok(0) => Err(RecordFault::Bad),
        Ok(number) => Ok(number),
        Err(fault) => Err(fault),
    }
}

/// The number with a sign of a text.
pub(crate) fn read_number(text: &[u8], limit: u128) -> Result<i128, RecordFault>
    requires { limit ≤ 10 ^ 38 }
    ensures { IsReading (λ z. IsSigned text.now z) (λ z. unsigned_abs z ≤ limit) result }
{
    match read_signed(text, limit) {
        Ok(number) => Ok(number),
        Err(WholeFault::NotWhole) => Err(RecordFault::Bad),
        Err(WholeFault::TooLarge) => Err(RecordFault::TooLarge),
    }
}

/// Two readings together: bad where one is, and else too large where one is.
pub(crate) fn both<X: Drop, Y: Drop>(
    first: Result<X, RecordFault>,
    second: Result<Y, RecordFault>,
) -> Result<(X, Y), RecordFault>
    ensures { result ≡ both_of first second }
{
    match (first, second) {
        (Ok(x), Ok(y)) => Ok((x, y)),
        (Err(RecordFault::Bad), _) => Err(RecordFault::Bad),
        (_, Err(RecordFault::Bad)) => Err(RecordFault::Bad),
        _ => Err(RecordFault::TooLarge),
    }
}

/// Whether one whole number is at most another, however long their texts are.
fn is_whole_at_most(low: &[u8], high: &[u8]) -> bool
    ensures { (m n : ℕ) → IsWhole low.now m → IsWhole high.now n → IsTrue result ↔ (m ≤ n) }
{
    if low.len() != high.len() {
        return low.len() < high.len();
    }
    match low.cmp(high) {
        Ordering::Greater => false,
        _ => true,
    }
}

/// What follows a minus sign at the front of a text.
fn after_minus(text: &[u8]) -> Option<&[u8]>
    ensures { MatchOption result ((digits : List ℕ) → text.now ≡ 45 ∷ digits → ⊥) (λ digits. text.now ≡ 45 ∷ digits.now) }
{
    text.strip_prefix(b"-")
}

/// Whether one number with a sign is at most another, however long their texts are.
pub(crate) fn is_at_most(low: &[u8], high: &[u8]) -> bool
    ensures { (y z : ℤ) → IsSigned low.now y → IsSigned high.now z → IsTrue result ↔ (y ≤ℤ z) }
{
    match (after_minus(low), after_minus(high)) {
        (None, None) => is_whole_at_most(low, high),
        (Some(_), None) => true,
        (None, Some(_)) => false,
        (Some(low_size), Some(high_size)) => is_whole_at_most(high_size, low_size),
    }
}
