ghost use Rattle.std.specs.Prelude.{◌≡◌, ◌≤◌, ◌<◌, ◌^◌, ℕ, pos, ◌+ℤ◌, ◌*ℤ◌, ◌≤ℤ◌, ◌<ℤ◌, unsigned_abs};
ghost use Rattle.std.specs.Int.{IsGcd};
ghost use Rattle.ofit_num.specs.Reduced.{Reduces};

use crate::divisor::divisor_of;
use crate::frac::Frac;

/// Both numbers divided by their greatest common divisor.
pub fn lowest(num: i128, den: i128) -> (i128, i128)
    requires num { pos 0 ≤ℤ num }
    requires den { pos 1 ≤ℤ den }
    ensures divided { (g : ℕ) × IsGcd (unsigned_abs num) (unsigned_abs den) g × (num ≡ result.0 *ℤ pos g) × (den ≡ result.1 *ℤ pos g) }
    ensures num { pos 0 ≤ℤ result.0 }
    ensures den { pos 1 ≤ℤ result.1 }
    ensures reduced { Reduces num den (record { num = result.0; den = unsigned_abs result.1 }) }
{
    let top = num.unsigned_abs();
    let bottom = den.unsigned_abs();
    let divisor = divisor_of(top, bottom);
    ((top / divisor) as i128, (bottom / divisor) as i128)
}

/// A numerator times a factor.
fn times(num: i128, factor: u64) -> i128
    requires num { unsigned_abs num ≤ 10 ^ 21 }
    requires factor { factor ≤ 10 ^ 9 }
    ensures { result ≡ num *ℤ pos factor }
{
    num * i128::from(factor)
}

/// The greatest whole number that is at most num/den.
fn floor_of(num: i128, den: i128) -> i128
    requires { pos 1 ≤ℤ den }
    ensures at_most { (result *ℤ den) ≤ℤ num }
    ensures greatest { num <ℤ ((result +ℤ pos 1) *ℤ den) }
{
    num.div_euclid(den)
}

impl Frac {
    /// The greatest whole number that is at most num·10^tens/den.
    pub fn floor_scaled(&self, tens: u32) -> i128
        requires { tens ≤ 9 }
        ensures at_most { (result *ℤ pos self.now.den) ≤ℤ (self.now.num *ℤ pos (10 ^ tens)) }
        ensures greatest { (self.now.num *ℤ pos (10 ^ tens)) <ℤ ((result +ℤ pos 1) *ℤ pos self.now.den) }
    {
        floor_of(times(self.num(), 10u64.pow(tens)), self.den())
    }
}
