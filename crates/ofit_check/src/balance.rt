ghost use Rattle.std.specs.Prelude.{◌≡◌, ◌↔◌, ◌<◌, ◌≤◌, ◌+◌, ◌*◌, ◌^◌, pos, ◌+ℤ◌, ◌≤ℤ◌, IsTrue, length, slice_index_or, unsigned_abs};
ghost use Rattle.ofit_num.specs.Flow.{balance};
ghost use Rattle.ofit_num.specs.Verdict.{IsBalanced};
ghost use Rattle.ofit_study.specs.Study.{names_of, places_of, problem_stated, meaning_of};
ghost use Rattle.ofit_check.specs.Check.{IsFirstFailure, HasValues, HasOrderedFlows, amount_along, signed_amount};

use crate::values::value_of;
use ofit_sheet::Sheet;
use ofit_span::span_of;
use ofit_study::Study;
use std::cmp::Ordering;

/// The amount of the flow along a pair, 0 where there is none. The flows stand in the order of the
/// pairs, so it is found in a number of steps that is logarithmic in them.
fn amount_on(study: &Study, sheet: &Sheet, index: u32) -> i128
    requires flows { HasOrderedFlows study.now sheet.now }
    requires index { index < length study.now.pairs }
    ensures amount { result ≡ pos (amount_along sheet.now.flows (slice_index_or (places_of study.now) index (0, 0))) }
    ensures size { unsigned_abs result ≤ 2 * 10 ^ 33 }
{
    let pair = study.pair_at(index);
    let mut least = 0;
    let mut end = sheet.flow_count();
    while least < end {
        let middle = least + (end - least) / 2;
        let (low, high, amount) = sheet.flow_at(middle);
        match study.compare_pairs((low, high), pair) {
            Ordering::Less => least = middle + 1,
            Ordering::Equal => return amount,
            Ordering::Greater => end = middle,
        }
    }
    0
}

/// What an amount along a pair adds to the balance of a place: it leaves the low end and enters the
/// high one.
fn share(place: u32, pair: (u32, u32), amount: i128) -> i128
    requires least { pos 0 ≤ℤ amount }
    requires most { unsigned_abs amount ≤ 2 * 10 ^ 33 }
    ensures exact { result ≡ signed_amount place pair (unsigned_abs amount) }
    ensures size { unsigned_abs result ≤ 2 * 10 ^ 33 }
{
    let out = if pair.0 == place { amount } else { 0 };
    let into = if pair.1 == place { amount } else { 0 };
    out - into
}

/// A sum of at most 20,000 shares with one share more.
fn plus(sum: i128, share: i128) -> i128
    requires sum { unsigned_abs sum ≤ 4 * 10 ^ 37 }
    requires share { unsigned_abs share ≤ 2 * 10 ^ 33 }
    ensures exact { result ≡ sum +ℤ share }
    ensures size { unsigned_abs result ≤ unsigned_abs sum + unsigned_abs share }
{
    sum + share
}

/// The flow out of the group at a place less the flow into it.
fn balance_at(study: &Study, sheet: &Sheet, place: u32) -> i128
    requires { HasOrderedFlows study.now sheet.now }
    ensures { result ≡ balance sheet.now.flows place }
{
    let mut balance = 0;
    for index in study.pairs_at(place) {
        let amount = amount_on(study, sheet, *index);
        balance = plus(balance, share(place, study.pair_at(*index), amount));
    }
    balance
}

/// Whether the balance of the group at a place is in its span, which is open where a bound bars the
/// move.
fn is_balanced(study: &Study, sheet: &Sheet, place: u32) -> bool
    requires values { HasValues study.now sheet.now }
    requires flows { HasOrderedFlows study.now sheet.now }
    requires place { place < length (names_of study.now) }
    ensures { IsTrue result ↔ IsBalanced (meaning_of study.now.settings.loss) (problem_stated study.now) sheet.now place }
{
    let value = value_of(study, sheet, place);
    span_of(study, place, &value).holds(balance_at(study, sheet, place))
}

/// The first place whose balance is outside its span.
pub(crate) fn first_unbalanced(study: &Study, sheet: &Sheet) -> Option<u32>
    requires values { HasValues study.now sheet.now }
    requires flows { HasOrderedFlows study.now sheet.now }
    ensures { IsFirstFailure (IsBalanced (meaning_of study.now.settings.loss) (problem_stated study.now) sheet.now) (length (names_of study.now)) result }
{
    for place in 0..study.group_count() {
        if !is_balanced(study, sheet, place) {
            return Some(place);
        }
    }
    None
}
