ghost use Rattle.std.specs.Prelude.{◌≡◌, ◌↔◌, ◌+◌, ◌-◌, ◌*◌, ◌≤◌, ◌<◌, ◌^◌, ◌++◌, List, ℕ, length, take, drop, IsTrue, MatchOption};
ghost use Rattle.std.specs.List.{AllByRecursion};
ghost use Rattle.ofit_num.specs.NumberText.{IsDigit, spelled_after};
ghost use Rattle.ofit_num.specs.DecimalText.{IsSpaces};
ghost use Rattle.ofit_num.specs.Digits.{Stops};

/// What follows the spaces at the front.
pub(super) fn after_spaces(text: &[u8]) -> &[u8]
    ensures spaces { (spaces : List ℕ) × IsSpaces spaces × (text.now ≡ spaces ++ result.now) }
    ensures stops { Stops (λ b. b ≡ 32) result.now }
{
    let mut rest = text;
    while let Some((first, others)) = rest.split_first() {
        if *first != b' ' {
            break;
        }
        rest = others;
    }
    rest
}

/// Whether nothing but spaces stands here.
pub(super) fn are_spaces(text: &[u8]) -> bool
    ensures { IsTrue result ↔ IsSpaces text.now }
{
    text.iter().all(|byte| *byte == b' ')
}

fn is_digit(byte: u8) -> bool
    ensures { IsTrue result ↔ IsDigit byte }
{
    b'0' <= byte && byte <= b'9'
}

/// How many digits stand at the front.
fn count_digits(text: &[u8]) -> usize
    ensures at_most { result ≤ length text.now }
    ensures digits { AllByRecursion IsDigit (take result text.now) }
    ensures stops { Stops IsDigit (drop result text.now) }
{
    for (count, byte) in text.iter().enumerate() {
        if !is_digit(*byte) {
            return count;
        }
    }
    text.len()
}

/// The digits at the front, and what follows them.
pub(super) fn digits_of(text: &[u8]) -> (&[u8], &[u8])
    ensures whole { text.now ≡ result.0.now ++ result.1.now }
    ensures digits { AllByRecursion IsDigit result.0.now }
    ensures stops { Stops IsDigit result.1.now }
{
    text.split_at(count_digits(text))
}

/// Whether all of the digits are `0`.
pub(super) fn is_zeros(digits: &[u8]) -> bool
    ensures { IsTrue result ↔ AllByRecursion (λ b. b ≡ 48) digits.now }
{
    digits.iter().all(|digit| *digit == b'0')
}

/// The number with one more digit, where it doesn't pass the limit.
fn with_digit(number: u64, digit: u8, limit: u64) -> Option<u64>
    requires { IsDigit digit }
    ensures { MatchOption result (limit < number * 10 + (digit - 48)) (λ n. (n ≡ number * 10 + (digit - 48)) × (n ≤ limit)) }
{
    let tens = number.checked_mul(10)?;
    let more = tens.checked_add(u64::from(digit - b'0'))?;
    if more <= limit { Some(more) } else { None }
}

/// The number that the digits spell after those of `number`, where it doesn't pass the limit.
pub(super) fn spelled(number: u64, digits: &[u8], limit: u64) -> Option<u64>
    requires digits { AllByRecursion IsDigit digits.now }
    requires in_limit { number ≤ limit }
    ensures { MatchOption result (limit < spelled_after number digits.now) (λ n. (n ≡ spelled_after number digits.now) × (n ≤ limit)) }
{
    let mut longer = number;
    for digit in digits {
        match with_digit(longer, *digit, limit) {
            Some(next) => longer = next,
            None => return None,
        }
    }
    Some(longer)
}

/// The number with so many zeros behind it, where it doesn't pass the limit.
pub(super) fn with_zeros(number: u64, zeros: u64, limit: u64) -> Option<u64>
    requires { number ≤ limit }
    ensures { MatchOption result (limit < number * 10 ^ zeros) (λ n. (n ≡ number * 10 ^ zeros) × (n ≤ limit)) }
{
    let mut longer = number;
    for _ in 0..zeros {
        match with_digit(longer, b'0', limit) {
            Some(next) => longer = next,
            None => return None,
        }
    }
    Some(longer)
}
