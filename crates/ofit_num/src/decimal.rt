ghost use Rattle.std.specs.Prelude.{◌≡◌, ◌↔◌, ◌+◌, ◌-◌, ◌≤◌, ◌<◌, ◌^◌, ◌++◌, ◌⊎◌, ℕ, ℤ, Bool, false, List, length, IsTrue, IfSome, IfNone, IfOk, IsErrOf, Ok, Err, pos, ◌≤ℤ◌, unsigned_abs};
ghost use Rattle.std.specs.List.{AllByRecursion};
ghost use Rattle.ofit_num.specs.NumberText.{IsDigit, spelled_after};
ghost use Rattle.ofit_num.specs.DecimalText.{IsSpaces, IsSign, IsPower, IsEnd, IsUnsigned, IsPoint, IsDecimal, IsScaled, IsUnits, IsNumber, IsFixed, UnitsRead, with_sign};
ghost use Rattle.ofit_num.specs.Digits.{Stops};

mod append;
mod digits;
mod laws;
mod plain;
mod scale;

pub use append::append_decimal;
use digits::{after_spaces, are_spaces, digits_of, spelled};
pub use laws::{decimal_texts_are_canonical, decimals_are_read_back};
use plain::plain_of;
use scale::{Digits, scaled};
use thiserror::Error;

/// Why a text gives no number of units.
#[derive(Clone, Copy, Debug, PartialEq, Eq, Error)]
pub enum NumFault {
    /// The text isn't a decimal.
    #[error("not a number")]
    NotNumber,
    /// The number isn't a whole number of units.
    #[error("too many decimals")]
    TooFine,
    /// The number of units passes the limit in absolute value.
    #[error("number too large")]
    TooLarge,
}

/// A power of ten as it is written, at most 999 in absolute value.
#[derive(Clone, Copy)]
struct Power {
    negative: bool,
    size: u64,
}

/// The parts of a decimal: its digits and its power of ten.
#[derive(Clone, Copy)]
struct Parts<'a> {
    digits: Digits<'a>,
    power: Power,
}

/// Whether a minus sign stands first, and what follows the sign.
fn after_sign(text: &[u8]) -> (bool, &[u8])
    ensures sign { (sign : List ℕ) × IsSign sign result.0 × (text.now ≡ sign ++ result.1.now) }
    ensures only { (sign rest : List ℕ) (negative : Bool) → IsSign sign negative → Stops (λ b. (b ≡ 43) ⊎ (b ≡ 45)) rest
        → text.now ≡ sign ++ rest → (negative ≡ result.0) × (rest ≡ result.1.now) }
{
    match text.split_first() {
        Some((b'-', rest)) => (true, rest),
        Some((b'+', rest)) => (false, rest),
        _ => (false, text),
    }
}

/// The power of ten that stands behind its letter.
fn power_of(text: &[u8]) -> Option<Power>
    ensures yes { IfSome result (λ p. IsPower text.now (with_sign p.negative p.size) × (p.size ≤ 999)) }
    ensures no { IfNone result ((x : ℤ) → IsPower text.now x → ⊥) }
{
    let (negative, rest) = after_sign(text);
    let (digits, rest) = digits_of(rest);
    if digits.is_empty() {
        return None;
    }
    if digits.len() > 3 {
        return None;
    }
    if !are_spaces(rest) {
        return None;
    }
    match spelled(0, digits, 999) {
        Some(size) => Some(Power { negative, size }),
        None => None,
    }
}

/// Whether the byte begins a power of ten.
fn is_power_letter(byte: u8) -> bool
    ensures { IsTrue result ↔ ((byte ≡ 101) ⊎ (byte ≡ 69)) }
{
    byte == b'e' || byte == b'E'
}

/// The power of ten of a number that only spaces follow.
fn no_power_of(text: &[u8]) -> Option<Power>
    ensures yes { IfSome result (λ p. IsSpaces text.now × (p.size ≡ 0) × (p.negative ≡ false)) }
    ensures no { IfNone result (IsSpaces text.now → ⊥) }
{
    if are_spaces(text) {
        Some(Power {
            negative: false,
            size: 0,
        })
    } else {
        None
    }
}

/// The power of ten of a number that this follows.
fn end_of(text: &[u8]) -> Option<Power>
    ensures yes { IfSome result (λ p. IsEnd text.now (with_sign p.negative p.size) × (p.size ≤ 999)) }
    ensures no { IfNone result ((x : ℤ) → IsEnd text.now x → ⊥) }
{
    match text.split_first() {
        Some((letter, rest)) => {
            if is_power_letter(*letter) {
                power_of(rest)
            } else {
                no_power_of(text)
            }
        }
        None => no_power_of(text),
    }
}

/// The digits behind the point, where one stands, and what follows them.
fn fraction_of(text: &[u8]) -> (&[u8], &[u8])
    ensures point { (point : List ℕ) × IsPoint point result.0.now × (text.now ≡ point ++ (result.0.now ++ result.1.now)) }
    ensures digits { AllByRecursion IsDigit result.0.now }
    ensures only { (point fraction rest : List ℕ) → IsPoint point fraction → AllByRecursion IsDigit fraction
        → Stops (λ b. IsDigit b ⊎ (b ≡ 46)) rest → text.now ≡ point ++ (fraction ++ rest)
        → (fraction ≡ result.0.now) × (rest ≡ result.1.now) }
{
    match text.split_first() {
        Some((b'.', rest)) => digits_of(rest),
        _ => text.split_at(0),
    }
}

/// The parts of a decimal that has neither spaces at its front nor a sign.
fn unsigned_of(text: &[u8]) -> Option<Parts<'_>>
    ensures yes { IfSome result (λ p. IsUnsigned text.now (spelled_after 0 (p.digits.whole.now ++ p.digits.fraction.now)) (length p.digits.fraction.now) (with_sign p.power.negative p.power.size)) }
    ensures digits { IfSome result (λ p. AllByRecursion IsDigit (p.digits.whole.now ++ p.digits.fraction.now)) }
    ensures power { IfSome result (λ p. p.power.size ≤ 999) }
    ensures no { IfNone result ((m f : ℕ) (x : ℤ) → IsUnsigned text.now m f x → ⊥) }
{
    let (whole, rest) = digits_of(text);
    let (fraction, rest) = fraction_of(rest);
    if whole.len() + fraction.len() == 0 {
        return None;
    }
    match end_of(rest) {
        Some(power) => Some(Parts {
            digits: Digits { whole, fraction },
            power,
        }),
        None => None,
    }
}

/// Whether a minus sign stands before the number, and its parts.
fn decimal_of(text: &[u8]) -> Option<(bool, Parts<'_>)>
    ensures yes { IfSome result (λ p. IsDecimal text.now p.0 (spelled_after 0 (p.1.digits.whole.now ++ p.1.digits.fraction.now)) (length p.1.digits.fraction.now) (with_sign p.1.power.negative p.1.power.size)) }
    ensures digits { IfSome result (λ p. AllByRecursion IsDigit (p.1.digits.whole.now ++ p.1.digits.fraction.now)) }
    ensures power { IfSome result (λ p. p.1.power.size ≤ 999) }
    ensures no { IfNone result ((negative : Bool) (m f : ℕ) (x : ℤ) → IsDecimal text.now negative m f x → ⊥) }
{
    let (negative, rest) = after_sign(after_spaces(text));
    match unsigned_of(rest) {
        Some(parts) => Some((negative, parts)),
        None => None,
    }
}

/// The size in units of a number of these parts.
fn size_of(
    whole: &[u8],
    fraction: &[u8],
    power: Power,
    places: u32,
    limit: u64,
) -> Result<u64, NumFault>
    requires digits { AllByRecursion IsDigit (whole.now ++ fraction.now) }
    requires size { power.size ≤ 999 }
    requires places { places ≤ 6 }
    ensures ok { IfOk result (λ n. IsScaled (spelled_after 0 (whole.now ++ fraction.now)) (length fraction.now) (with_sign power.negative power.size) places n × (n ≤ limit)) }
    ensures too_fine { IsErrOf result NumFault.TooFine → (n : ℕ) → IsScaled (spelled_after 0 (whole.now ++ fraction.now)) (length fraction.now) (with_sign power.negative power.size) places n → ⊥ }
    ensures too_large { IsErrOf result NumFault.TooLarge → (n : ℕ) × IsScaled (spelled_after 0 (whole.now ++ fraction.now)) (length fraction.now) (with_sign power.negative power.size) places n × (limit < n) }
    ensures other { IsErrOf result NumFault.NotNumber → ⊥ }
{
    let behind = fraction.len() as u64;
    let raise = if power.negative { 0 } else { power.size };
    let up = u64::from(places) + raise;
    let down = behind + (power.size - raise);
    let common = up.min(down);
    scaled(whole, fraction, up - common, down - common, limit)
}

/// The number of this size, with or without a minus sign.
fn signed(negative: bool, size: u64) -> i64
    requires { size < 2 ^ 63 }
    ensures { result ≡ with_sign negative size }
{
    if negative {
        -(size as i64)
    } else {
        size as i64
    }
}

/// The number of units of 10^(-places) that a decimal of any form spells. A call of its own, so that a
/// plain decimal pays nothing for it.
#[inline(never)]
fn units_by_parts(text: &[u8], places: u32, limit: i64) -> Result<i64, NumFault>
    requires places { places ≤ 6 }
    requires limit { pos 0 ≤ℤ limit }
    ensures ok { IfOk result (λ z. IsUnits text.now places z × (unsigned_abs z ≤ unsigned_abs limit)) }
    ensures not_number { IsErrOf result NumFault.NotNumber → IsNumber text.now → ⊥ }
    ensures too_fine { IsErrOf result NumFault.TooFine → IsNumber text.now × ((z : ℤ) → IsUnits text.now places z → ⊥) }
    ensures too_large { IsErrOf result NumFault.TooLarge → (z : ℤ) × IsUnits text.now places z × (unsigned_abs limit < unsigned_abs z) }
{
    match decimal_of(text) {
        None => Err(NumFault::NotNumber),
        Some((negative, parts)) => match size_of(
            parts.digits.whole,
            parts.digits.fraction,
            parts.power,
            places,
            limit.unsigned_abs(),
        ) {
            Ok(size) => Ok(signed(negative, size)),
            Err(fault) => Err(fault),
        },
    }
}

/// The number of units of 10^(-places) that a decimal spells. A short plain one is read at once.
fn units_of(text: &[u8], places: u32, limit: i64) -> Result<i64, NumFault>
    requires places { places ≤ 6 }
    requires limit { pos 0 ≤ℤ limit }
    ensures ok { IfOk result (λ z. IsUnits text.now places z × (unsigned_abs z ≤ unsigned_abs limit)) }
    ensures not_number { IsErrOf result NumFault.NotNumber → IsNumber text.now → ⊥ }
    ensures too_fine { IsErrOf result NumFault.TooFine → IsNumber text.now × ((z : ℤ) → IsUnits text.now places z → ⊥) }
    ensures too_large { IsErrOf result NumFault.TooLarge → (z : ℤ) × IsUnits text.now places z × (unsigned_abs limit < unsigned_abs z) }
{
    if let Some(plain) = plain_of(text, places) {
        if plain.size <= limit.unsigned_abs() {
            return Ok(signed(plain.negative, plain.size));
        }
    }
    units_by_parts(text, places, limit)
}

/// The number of units of 10^(-places) that a decimal spells: spaces, a sign or none, digits with at
/// most one point among, before or behind them, at least one digit, then `e` or `E` with a sign or none
/// and one to three digits or no such power, and spaces.
///
/// [`NumFault::NotNumber`] where the text isn't a decimal, else [`NumFault::TooFine`] where the number isn't
/// a whole number of units, else [`NumFault::TooLarge`] where it passes the limit in absolute value.
///
/// Time linear in the text, and no memory, however many digits it has and whatever its power of ten.
/// The digits that the power and the places leave behind the point must all be `0`, and are only looked
/// at. The number is made from the other ones and at most 1,005 further zeros, and is given up as soon as
/// it passes the limit; zeros in front leave it at 0. So it never passes ten times the limit and nine.
pub fn read_decimal(text: &[u8], places: u32, limit: i64) -> Result<i64, NumFault>
    requires places { places ≤ 6 }
    requires limit { pos 0 ≤ℤ limit }
    ensures read { UnitsRead text.now places (unsigned_abs limit) result }
    // so each text of a number within the limit is read
    ensures reads { (z : ℤ) → IsUnits text.now places z → unsigned_abs z ≤ unsigned_abs limit → result ≡ Ok z }
    // one that was appended among them
    ensures reads_back { (z : ℤ) → IsFixed text.now z places → unsigned_abs z ≤ unsigned_abs limit → result ≡ Ok z }
{
    units_of(text, places, limit)
}
