ghost use Rattle.std.specs.Prelude.{◌≡◌, ◌↔◌, ◌+◌, ◌-◌, ◌*◌, ◌≤◌, ◌<◌, ◌^◌, ℕ, ℤ, All, IsTrue, MatchOption, IfOk, IsErrOf, Ok, Err, decimal, false, true, unsigned_abs};
ghost use Rattle.std.specs.Fmt.{signed_decimal};
ghost use Rattle.ofit_num.specs.NumberText.{IsDigit, IsWhole, IsSigned, spelled_after};

use thiserror::Error;

/// Why a text gives no number of the kind that is asked for.
#[derive(Clone, Copy, Debug, PartialEq, Eq, Error)]
pub enum WholeFault {
    /// The text isn't the canonical one of any number.
    #[error("not a whole number")]
    NotWhole,
    /// The number passes the limit.
    #[error("number too large")]
    TooLarge,
}

/// The number with one more digit, where it is below 2^128.
fn with_digit(number: u128, digit: u8) -> Option<u128>
    requires { IsDigit digit }
    ensures { MatchOption result (2 ^ 128 ≤ number * 10 + (digit - 48)) (λ n. n ≡ number * 10 + (digit - 48)) }
{
    match number.checked_mul(10) {
        Some(tens) => tens.checked_add(u128::from(digit - b'0')),
        None => None,
    }
}

/// The number that digits spell, where it is below 2^128.
fn number_of(digits: &[u8]) -> Option<u128>
    requires { All IsDigit digits.now }
    ensures { MatchOption result (2 ^ 128 ≤ spelled_after 0 digits.now) (λ n. n ≡ spelled_after 0 digits.now) }
{
    let mut number: u128 = 0;
    for digit in digits {
        match with_digit(number, *digit) {
            Some(longer) => number = longer,
            None => return None,
        }
    }
    Some(number)
}

fn are_digits(text: &[u8]) -> bool
    ensures { IsTrue result ↔ All IsDigit text.now }
{
    text.iter().all(|byte| b'0' <= *byte && *byte <= b'9')
}

/// Whether the text is a canonical whole number.
fn is_whole(text: &[u8]) -> bool
    ensures yes { result ≡ true → IsWhole text.now (spelled_after 0 text.now) }
    ensures digits { result ≡ true → All IsDigit text.now }
    ensures no { result ≡ false → (n : ℕ) → IsWhole text.now n → ⊥ }
{
    match text.split_first() {
        None => false,
        Some((first, rest)) => {
            if *first == b'0' {
                rest.is_empty()
            } else {
                are_digits(text)
            }
        }
    }
}

/// The number that a canonical whole number spells.
fn whole_of(text: &[u8], limit: u128) -> Result<u128, WholeFault>
    ensures ok { IfOk result (λ n. IsWhole text.now n × (n ≤ limit)) }
    ensures not_whole { IsErrOf result WholeFault.NotWhole → (n : ℕ) → IsWhole text.now n → ⊥ }
    ensures too_large { IsErrOf result WholeFault.TooLarge → (n : ℕ) × IsWhole text.now n × (limit < n) }
{
    if !is_whole(text) {
        return Err(WholeFault::NotWhole);
    }
    match number_of(text) {
        Some(number) => {
            if number <= limit {
                Ok(number)
            } else {
                Err(WholeFault::TooLarge)
            }
        }
        None => Err(WholeFault::TooLarge),
    }
}

/// The number that a canonical whole number spells: `0`, or a digit 1 to 9 followed by digits. Any other
/// text is [`WholeFault::NotWhole`]; a number past the limit is [`WholeFault::TooLarge`]. Time linear in the
/// text, however long.
pub fn read_whole(text: &[u8], limit: u128) -> Result<u128, WholeFault>
    ensures ok { IfOk result (λ n. IsWhole text.now n × (n ≤ limit)) }
    ensures not_whole { IsErrOf result WholeFault.NotWhole → (n : ℕ) → IsWhole text.now n → ⊥ }
    ensures too_large { IsErrOf result WholeFault.TooLarge → (n : ℕ) × IsWhole text.now n × (limit < n) }
    // so each text of a number within the limit is read
    ensures reads { (n : ℕ) → IsWhole text.now n → n ≤ limit → result ≡ Ok n }
    // one that was appended among them
    ensures reads_back { (n : ℕ) → text.now ≡ decimal n → n ≤ limit → result ≡ Ok n }
{
    whole_of(text, limit)
}

/// The number that a canonical signed number spells.
fn signed_of(text: &[u8], limit: u128) -> Result<i128, WholeFault>
    requires { limit ≤ 10 ^ 38 }
    ensures ok { IfOk result (λ z. IsSigned text.now z × (unsigned_abs z ≤ limit)) }
    ensures not_whole { IsErrOf result WholeFault.NotWhole → (z : ℤ) → IsSigned text.now z → ⊥ }
    ensures too_large { IsErrOf result WholeFault.TooLarge → (z : ℤ) × IsSigned text.now z × (limit < unsigned_abs z) }
{
    match text.split_first() {
        None => Err(WholeFault::NotWhole),
        Some((first, rest)) => {
            if *first == b'-' {
                match whole_of(rest, limit) {
                    Ok(0) => Err(WholeFault::NotWhole),
                    Ok(size) => Ok(-(size as i128)),
                    Err(fault) => Err(fault),
                }
            } else {
                match whole_of(text, limit) {
                    Ok(number) => Ok(number as i128),
                    Err(fault) => Err(fault),
                }
            }
        }
    }
}

/// The number that a canonical signed number spells: a canonical whole number, or `-` followed by
/// one that isn't `0`. The limit is on its absolute value. The faults are those of [`read_whole`]. Time
/// linear in the text.
pub fn read_signed(text: &[u8], limit: u128) -> Result<i128, WholeFault>
    requires { limit ≤ 10 ^ 38 }
    ensures ok { IfOk result (λ z. IsSigned text.now z × (unsigned_abs z ≤ limit)) }
    ensures not_whole { IsErrOf result WholeFault.NotWhole → (z : ℤ) → IsSigned text.now z → ⊥ }
    ensures too_large { IsErrOf result WholeFault.TooLarge → (z : ℤ) × IsSigned text.now z × (limit < unsigned_abs z) }
    // so each text of a number within the limit is read
    ensures reads { (z : ℤ) → IsSigned text.now z → unsigned_abs z ≤ limit → result ≡ Ok z }
    // one that was appended among them
    ensures reads_back { (z : ℤ) → text.now ≡ signed_decimal z → unsigned_abs z ≤ limit → result ≡ Ok z }
{
    signed_of(text, limit)
}
