ghost use Rattle.std.specs.Prelude.{◌≡◌, ◌≤◌, ◌^◌, pos, ◌*ℤ◌, All};
ghost use Rattle.std.specs.Int.RustNames.{unsigned_abs};
ghost use Rattle.ofit_num.specs.Fraction.{IsLowest};
ghost use Rattle.ofit_num.specs.Signed.{signed_as};

use crate::divisor::divisor_of;
use crate::limits::{MOST_DEN, MOST_NUM};
use std::cmp::Ordering;
use std::marker::Model;

/// A fraction in lowest terms, whose numerator is at most 10^21 in absolute value and whose
/// denominator is from 1 to 10^12.
#[derive(Clone, Copy)]
pub struct Frac {
    num: i128,
    den: u64,
}

impl Model for Frac {
    ghost use Rattle.ofit_num.specs.Fraction.{Fraction, IsLowest};
    ghost use Rattle.ofit_num.specs.Reduced.{InLimits};

    ghost Value = { Fraction };

    ghost view = { λ f. record { num = f.num; den = f.den } };

    ghost invariant = { λ f. let v : Fraction = record { num = f.num; den = f.den } in IsLowest v × InLimits v };

    ghost inverse = { λ v. record { num = v.num; den = v.den } };
}

/// A numerator times a denominator, at most 10^33 in absolute value.
fn scaled(num: i128, den: u64) -> i128
    requires numerator { unsigned_abs num ≤ 10 ^ 21 }
    requires denominator { den ≤ 10 ^ 12 }
    ensures { result ≡ num *ℤ pos den }
{
    num * i128::from(den)
}

/// A number of the given size whose sign is that of `num`.
fn with_sign_of(num: i128, size: u128) -> i128
    requires { size ≤ 10 ^ 21 }
    ensures { result ≡ signed_as num size }
{
    if num < 0 {
        -(size as i128)
    } else {
        size as i128
    }
}

impl Frac {
    ghost use Rattle.std.specs.Prelude.{◌≡◌, ◌≤◌, ◌<◌, ◌^◌, ◌⊎◌, IsSome, IfSome, IfNone, ℤ, pos, ◌*ℤ◌, ◌≤ℤ◌, ◌<ℤ◌};
    ghost use Rattle.std.specs.Ordering.{int_cmp};
    ghost use Rattle.std.specs.Int.RustNames.{unsigned_abs};
    ghost use Rattle.ofit_num.specs.Fraction.{Fraction, IsLowest};
    ghost use Rattle.ofit_num.specs.Reduced.{InLimits, Reduces};

    /// The fraction in lowest terms. None where `den` is below 1, or where the reduced parts pass
    /// the limits.
    pub fn make(num: i128, den: i128) -> Option<Frac>
        ensures positive { IsSome result → pos 1 ≤ℤ den }
        ensures reduced { IfSome result (Reduces num den) }
        ensures in_limits { IfSome result InLimits }
        ensures refused { IfNone result ((den <ℤ pos 1) ⊎ ((f : Fraction) × Reduces num den f × ¬ (InLimits f))) }
        ensures small { pos 1 ≤ℤ den → den ≤ℤ pos (10 ^ 12) → unsigned_abs num ≤ 10 ^ 21 → IsSome result }
    {
        if den < 1 {
            return None;
        }
        let magnitude = num.unsigned_abs();
        let below = den.unsigned_abs();
        let divisor = divisor_of(magnitude, below);
        let top = magnitude / divisor;
        let bottom = below / divisor;
        if top > MOST_NUM || bottom > MOST_DEN {
            return None;
        }
        Some(Frac {
            num: with_sign_of(num, top),
            den: bottom as u64,
        })
    }

    /// The numerator.
    pub fn num(&self) -> i128
        ensures value { result ≡ self.now.num }
        ensures in_limits { unsigned_abs result ≤ 10 ^ 21 }
    {
        self.num
    }

    /// The denominator, from 1 to 10^12.
    pub fn den(&self) -> i128
        ensures value { result ≡ pos self.now.den }
        ensures in_limits { self.now.den ≤ 10 ^ 12 }
        ensures lowest { IsLowest self.now }
    {
        i128::from(self.den)
    }

    /// The order of the two values.
    pub fn compare(&self, other: &Frac) -> Ordering
        ensures { result ≡ int_cmp (self.now.num *ℤ pos other.now.den) (other.now.num *ℤ pos self.now.den) }
    {
        scaled(self.num, other.den).cmp(&scaled(other.num, self.den))
    }
}

/// Tells that each value is in lowest terms, as every [`Frac`] is. Time linear in their count.
pub fn tell_lowest(values: &[Frac])
    ensures { All IsLowest values.now }
{
    for value in values {
        let _den = value.den();
    }
}
