ghost use Rattle.std.specs.Prelude.{◌≡◌, ◌≤◌, ◌^◌, ◌+◌, ◌+ℤ◌, ◌*ℤ◌, unsigned_abs};

/// A product of at most 10^33 in absolute value.
pub(crate) fn scaled(number: i128, factor: i128) -> i128
    requires number { unsigned_abs number ≤ 10 ^ 21 }
    requires factor { unsigned_abs factor ≤ 10 ^ 12 }
    ensures exact { result ≡ number *ℤ factor }
    ensures size { unsigned_abs result ≤ 10 ^ 33 }
{
    number * factor
}

/// The sum of two numbers of at most 10^19 in absolute value.
pub(crate) fn plus(left: i128, right: i128) -> i128
    requires left { unsigned_abs left ≤ 10 ^ 19 }
    requires right { unsigned_abs right ≤ 10 ^ 19 }
    ensures exact { result ≡ left +ℤ right }
    ensures size { unsigned_abs result ≤ unsigned_abs left + unsigned_abs right }
{
    left + right
}
