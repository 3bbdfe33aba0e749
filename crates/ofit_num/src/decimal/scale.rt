ghost use Rattle.std.specs.Prelude.{◌≡◌, ◌↔◌, IsTrue, ◌*◌, ◌≤◌, ◌<◌, ◌^◌, ◌++◌, ◌⊎◌, [], ℕ, length, IfOk, IsErrOf, MatchOption};
ghost use Rattle.std.specs.List.{AllByRecursion};
ghost use Rattle.ofit_num.specs.NumberText.{IsDigit, spelled_after};

use crate::decimal::NumFault;
use crate::decimal::digits::{is_zeros, spelled, with_zeros};

/// Digits before and behind a point.
#[derive(Clone, Copy)]
pub(super) struct Digits<'a> {
    pub(super) whole: &'a [u8],
    pub(super) fraction: &'a [u8],
}

/// The digits without the last `down` ones, and these.
fn cut<'a>(whole: &'a [u8], fraction: &'a [u8], down: u64) -> (Digits<'a>, Digits<'a>)
    ensures parts { whole.now ++ fraction.now ≡ (result.0.whole.now ++ result.0.fraction.now) ++ (result.1.whole.now ++ result.1.fraction.now) }
    ensures down { (length (result.1.whole.now ++ result.1.fraction.now) ≡ down) ⊎ ((length (result.1.whole.now ++ result.1.fraction.now) ≤ down) × (result.0.whole.now ++ result.0.fraction.now ≡ [])) }
{
    let behind = fraction.len() as u64;
    if down <= behind {
        let (all, none) = whole.split_at(whole.len());
        let (kept, left) = fraction.split_at((behind - down) as usize);
        (
            Digits {
                whole: all,
                fraction: kept,
            },
            Digits {
                whole: none,
                fraction: left,
            },
        )
    } else {
        let before = whole.len() as u64;
        let (kept, left) = whole.split_at(before.saturating_sub(down - behind) as usize);
        let (none, all) = fraction.split_at(0);
        (
            Digits {
                whole: kept,
                fraction: none,
            },
            Digits {
                whole: left,
                fraction: all,
            },
        )
    }
}

/// Whether all of the digits are `0`.
fn are_zeros(whole: &[u8], fraction: &[u8]) -> bool
    ensures { IsTrue result ↔ AllByRecursion (λ b. b ≡ 48) (whole.now ++ fraction.now) }
{
    is_zeros(whole) && is_zeros(fraction)
}

/// The number that digits spell with so many zeros behind them, where it doesn't pass the limit.
fn value_of(whole: &[u8], fraction: &[u8], up: u64, limit: u64) -> Option<u64>
    requires { AllByRecursion IsDigit (whole.now ++ fraction.now) }
    ensures { MatchOption result (limit < spelled_after 0 (whole.now ++ fraction.now) * 10 ^ up) (λ n. (n ≡ spelled_after 0 (whole.now ++ fraction.now) * 10 ^ up) × (n ≤ limit)) }
{
    match spelled(0, whole, limit) {
        None => None,
        Some(before) => match spelled(before, fraction, limit) {
            None => None,
            Some(number) => with_zeros(number, up, limit),
        },
    }
}

/// The number that digits spell, times 10^up or divided by 10^down.
pub(super) fn scaled(
    whole: &[u8],
    fraction: &[u8],
    up: u64,
    down: u64,
    limit: u64,
) -> Result<u64, NumFault>
    requires digits { AllByRecursion IsDigit (whole.now ++ fraction.now) }
    requires one { (up ≡ 0) ⊎ (down ≡ 0) }
    ensures ok { IfOk result (λ n. (n * 10 ^ down ≡ spelled_after 0 (whole.now ++ fraction.now) * 10 ^ up) × (n ≤ limit)) }
    ensures too_fine { IsErrOf result NumFault.TooFine → (up ≡ 0) × ((n : ℕ) → n * 10 ^ down ≡ spelled_after 0 (whole.now ++ fraction.now) → ⊥) }
    ensures too_large { IsErrOf result NumFault.TooLarge → (n : ℕ) × (n * 10 ^ down ≡ spelled_after 0 (whole.now ++ fraction.now) * 10 ^ up) × (limit < n) }
    ensures other { IsErrOf result NumFault.NotNumber → ⊥ }
{
    let (kept, left) = cut(whole, fraction, down);
    if !are_zeros(left.whole, left.fraction) {
        return Err(NumFault::TooFine);
    }
    match value_of(kept.whole, kept.fraction, up, limit) {
        Some(number) => Ok(number),
        None => Err(NumFault::TooLarge),
    }
}
