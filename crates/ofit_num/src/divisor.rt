ghost use Rattle.std.specs.Prelude.{◌<◌};
ghost use Rattle.std.specs.Int.{IsGcd};

/// The greatest common divisor, by Euclid's algorithm.
pub(crate) fn divisor_of(a: u128, b: u128) -> u128
    requires { 0 < b }
    ensures divisor { IsGcd a b result }
    ensures positive { 0 < result }
{
    let mut left = a;
    let mut right = b;
    while right != 0 {
        let rest = left % right;
        left = right;
        right = rest;
    }
    left
}
