//! Fits of a few groups by search.

use super::Weighed;
use ofit_num::Frac;
use ofit_study::LossKind;

/// Whether the set, one bit a place, has the place.
fn has(set: u32, place: u32) -> bool {
    set.wrapping_shr(place) % 2 == 1
}

/// Whether the set has, with the low end of each pair, the high one.
fn is_upper(pairs: &[(u32, u32)], set: u32) -> bool {
    pairs
        .iter()
        .all(|pair| !has(set, pair.0) || has(set, pair.1))
}

/// The sum of the values of the set's rows, each times its weight, and the sum of the weights.
fn totals(rows: &[Weighed], set: u32) -> (i128, i128) {
    let mut sum = 0i128;
    let mut weights = 0i128;
    for (place, value, weight) in rows {
        if has(set, *place) {
            let weight = i128::from(*weight);
            sum = sum.wrapping_add(i128::from(*value).wrapping_mul(weight));
            weights = weights.wrapping_add(weight);
        }
    }
    (sum, weights)
}

/// Whether the first fraction is less than the second one.
fn is_less(first: (i128, i128), second: (i128, i128)) -> bool {
    first.0.wrapping_mul(second.1) < second.0.wrapping_mul(first.1)
}

/// The least mean of what an upper set without the place leaves of the set.
fn least_mean(
    count: u32,
    rows: &[Weighed],
    pairs: &[(u32, u32)],
    place: u32,
    set: u32,
) -> (i128, i128) {
    let mut least = (1_000_000i128, 1i128);
    for above in 0..1u32.wrapping_shl(count) {
        if !has(above, place) && is_upper(pairs, above) {
            let mean = totals(rows, set & !above);
            if is_less(mean, least) {
                least = mean;
            }
        }
    }
    least
}

/// The value of least squares at a place: the greatest over the upper sets with the place of the least
/// mean over the lower sets with it.
fn mean_at(count: u32, rows: &[Weighed], pairs: &[(u32, u32)], place: u32) -> (i128, i128) {
    let mut greatest = (-1_000_000i128, 1i128);
    for set in 0..1u32.wrapping_shl(count) {
        if has(set, place) && is_upper(pairs, set) {
            let mean = least_mean(count, rows, pairs, place, set);
            if is_less(greatest, mean) {
                greatest = mean;
            }
        }
    }
    greatest
}

/// The value, from 0 to 4, that a code has for a place: its digit to the base 5.
fn level_at(code: u32, place: u32) -> i64 {
    let mut rest = code;
    for _ in 0..place {
        rest /= 5;
    }
    i64::from(rest % 5)
}

/// Whether the values of a code go along the pairs.
fn obeys(pairs: &[(u32, u32)], code: u32) -> bool {
    pairs
        .iter()
        .all(|pair| level_at(code, pair.0) <= level_at(code, pair.1))
}

/// The sum of the rows' distances from the values of a code, each times its weight.
fn cost_of(rows: &[Weighed], code: u32) -> u64 {
    let mut cost = 0u64;
    for (place, value, weight) in rows {
        let apart = value.abs_diff(level_at(code, *place));
        cost = cost.wrapping_add(apart.wrapping_mul(*weight));
    }
    cost
}

/// The least value at a place among all values of the least cost that go along the pairs.
fn median_at(count: u32, rows: &[Weighed], pairs: &[(u32, u32)], place: u32) -> i64 {
    let mut best = u64::MAX;
    let mut least = 5;
    for code in 0..5u32.wrapping_pow(count) {
        if obeys(pairs, code) {
            let cost = cost_of(rows, code);
            let level = level_at(code, place);
            if cost < best || cost == best && level < least {
                best = cost;
                least = level;
            }
        }
    }
    least
}

/// The value at a place, as a numerator and a denominator that need not be in lowest terms.
fn value_at(
    loss: LossKind,
    count: u32,
    rows: &[Weighed],
    pairs: &[(u32, u32)],
    place: u32,
) -> (i128, i128) {
    match loss {
        LossKind::Squares => mean_at(count, rows, pairs, place),
        LossKind::Median => (i128::from(median_at(count, rows, pairs, place)), 1),
    }
}

/// Whether the values are those that the search finds.
pub(crate) fn are_found(
    loss: LossKind,
    values: &[Frac],
    count: u32,
    rows: &[Weighed],
    pairs: &[(u32, u32)],
) -> bool {
    let mut place = 0u32;
    for value in values {
        let (num, den) = value_at(loss, count, rows, pairs, place);
        if value.num().wrapping_mul(den) != num.wrapping_mul(value.den()) {
            return false;
        }
        place = place.wrapping_add(1);
    }
    place == count
}
