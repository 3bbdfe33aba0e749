ghost use Rattle.std.specs.Prelude.{◌≡◌, ◌+◌, ◌-◌, ◌*◌, ◌≤◌, ◌<◌, ◌^◌, ◌++◌, List, ℕ, IfSome, MatchOption, length, drop, pos};
ghost use Rattle.std.specs.List.{AllByRecursion};
ghost use Rattle.ofit_num.specs.NumberText.{IsDigit, spelled_after};
ghost use Rattle.ofit_num.specs.DecimalText.{IsDecimal, IsScaled, IsUnsigned};

use crate::decimal::after_sign;

/// The most bytes of a plain decimal: those of a number of 1,000,000,000 units at most, at any places. A number
/// of so many digits fits into 64 bits, and so it does with as many zeros behind it as places.
const MOST_BYTES: usize = 12;

/// A number of units with or without a minus sign.
#[derive(Clone, Copy)]
pub(super) struct Plain {
    pub(super) negative: bool,
    pub(super) size: u64,
}

/// The number that digits spell, and how many of them stand behind the point.
#[derive(Clone, Copy)]
struct Spelled {
    number: u64,
    behind: usize,
}

/// The digit that the byte is.
fn digit_of(byte: u8) -> Option<u64>
    ensures { MatchOption result (IsDigit byte → ⊥) (λ d. IsDigit byte × (d ≡ byte - 48)) }
{
    let digit = u64::from(byte).wrapping_sub(48);
    if digit <= 9 { Some(digit) } else { None }
}

/// The number that the digits from an index on spell after those of `number`, and the index behind them.
fn digits_from(text: &[u8], start: usize, number: u64) -> (u64, usize)
    requires start { start ≤ length text.now }
    requires room { (number + 1) * 10 ^ length (drop start text.now) ≤ 10 ^ 12 }
    ensures within { result.1 ≤ length text.now }
    ensures spells { (digits : List ℕ) × AllByRecursion IsDigit digits × (drop start text.now ≡ digits ++ drop result.1 text.now) × (result.0 ≡ spelled_after number digits) }
    ensures room { (result.0 + 1) * 10 ^ length (drop result.1 text.now) ≤ 10 ^ 12 }
{
    let mut longer = number;
    for index in start..text.len() {
        match digit_of(text[index]) {
            Some(digit) => longer = longer * 10 + digit,
            None => return (longer, index),
        }
    }
    (longer, text.len())
}

/// The number that digits spell, with at most one point behind the first, where the text is nothing else.
fn spelled_of(text: &[u8]) -> Option<Spelled>
    requires { length text.now ≤ 12 }
    ensures spells { IfSome result (λ s. IsUnsigned text.now s.number s.behind (pos 0)) }
    ensures few { IfSome result (λ s. s.number < 10 ^ 12) }
{
    let (whole, point) = digits_from(text, 0, 0);
    if point == 0 {
        return None;
    }
    if point == text.len() {
        return Some(Spelled {
            number: whole,
            behind: 0,
        });
    }
    if text[point] != b'.' {
        return None;
    }
    let (number, end) = digits_from(text, point + 1, whole);
    if end < text.len() {
        return None;
    }
    Some(Spelled {
        number,
        behind: end - point - 1,
    })
}

/// The number in units of 10^(-places), where it is a whole number of them.
fn units(spelled: Spelled, places: u32) -> Option<u64>
    requires number { spelled.number < 10 ^ 12 }
    requires places { places ≤ 6 }
    ensures { IfSome result (λ n. IsScaled spelled.number spelled.behind (pos 0) places n) }
{
    if spelled.behind > places as usize {
        return None;
    }
    let mut size = spelled.number;
    for _ in spelled.behind as u32..places {
        size *= 10;
    }
    Some(size)
}

/// The number of units of 10^(-places) of a short decimal without spaces or a power of ten. None where the
/// text is no such one, has no digit before the point, or has more decimals than places.
pub(super) fn plain_of(text: &[u8], places: u32) -> Option<Plain>
    requires { places ≤ 6 }
    ensures { IfSome result (λ p. (m f : ℕ) × IsDecimal text.now p.negative m f (pos 0) × IsScaled m f (pos 0) places p.size) }
{
    if text.len() > MOST_BYTES {
        return None;
    }
    let (negative, number) = after_sign(text);
    let spelled = spelled_of(number)?;
    let size = units(spelled, places)?;
    Some(Plain { negative, size })
}
