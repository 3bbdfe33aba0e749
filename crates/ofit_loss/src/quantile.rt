ghost use Rattle.std.specs.Prelude.{◌≡◌, ℕ, ◌+◌, ◌*◌, ◌<◌, ◌≤◌, ◌≤ℤ◌, ◌↔◌, List, All, sum_by, ◌++◌, IsTrue, IfOk, OnOk, false, unsigned_abs};
ghost use Rattle.std.specs.BinaryHeap.{heap_items, heap_len};
ghost use Rattle.ofit_num.specs.declared.row.Row.{Row};
ghost use Rattle.ofit_num.specs.RowTotals.{total_weight};
ghost use Rattle.ofit_num.specs.RowLimits.{AreWithinLimits};
ghost use Rattle.ofit_loss.specs.declared.entry.Entry.{Entry};
ghost use Rattle.ofit_loss.specs.Pool.{CanJoin};

use crate::entry::Entry;
use ofit_num::Row;
use std::alloc::{AllocError, Global};
use std::cmp::Reverse;
use std::collections::BinaryHeap;

/// What a residual above 0 counts, and what one below 0 does. The median has 1 and 1.
#[derive(Clone, Copy)]
pub struct Factors {
    pub above: u64,
    pub below: u64,
}

/// Rows on both sides of their quantile, in two heaps: those at most there, the greatest first, and
/// those at least there, the least first. The quantile is read off the first one.
///
/// A row is put in, or moved across, in time logarithmic in the rows. Of two pools the rows of the
/// smaller one are put into the larger one.
pub struct QuantilePool {
    low: BinaryHeap<Entry>,
    high: BinaryHeap<Reverse<Entry>>,
    low_weight: u64,
    weight: u64,
}

/// Written out, so that a proof meets one call where a value is let go.
impl Drop for QuantilePool {
    fn drop(self) {
        let QuantilePool {
            low,
            high,
            low_weight: _,
            weight: _,
        } = self;
        drop(low);
        drop(high);
    }
}

impl QuantilePool {
    ghost use Rattle.ofit_loss.specs.Entry.{entry_of};
    ghost use Rattle.ofit_num.specs.declared.limits.TheConstants.{MOST_UNITS, MOST_WEIGHT};
    ghost use Rattle.ofit_loss.specs.Quantile.{IsQuantile, IsSplit, IsLeastShare, IsBalanced, IsQuantilePool, HasQuantile, AreFactors, entry_under, low_sum, pool_sum};

    /// The pool of the rows. Some rows from the middle are put in first, so that most of the others come
    /// to their side at once.
    pub fn of(alloc: Global, factors: Factors, rows: &[Row]) -> Result<QuantilePool, AllocError>
        requires factors { AreFactors factors.above factors.below }
        requires limits { AreWithinLimits rows.now }
        ensures { IfOk result (λ pool. IsQuantilePool factors.above factors.below pool rows.now) }
    {
        let mut pool = QuantilePool {
            low: BinaryHeap::new(alloc),
            high: BinaryHeap::new(alloc),
            low_weight: 0,
            weight: 0,
        };
        let (front, rest) = rows.split_at(rows.len() / 2);
        let (sample, back) = rest.split_at(rest.len() / 4);
        pool.insert_rows(sample)?;
        pool.balance(factors)?;
        pool.insert_rows(front)?;
        pool.insert_rows(back)?;
        pool.balance(factors)?;
        Ok(pool)
    }

    /// The pool of the rows of both.
    pub fn join(self, other: QuantilePool, factors: Factors) -> Result<QuantilePool, AllocError>
        requires factors { AreFactors factors.above factors.below }
        requires pools { CanJoin (IsQuantilePool factors.above factors.below) self other }
        ensures { (xs ys : List Row) → IsQuantilePool factors.above factors.below self xs → IsQuantilePool factors.above factors.below other ys → IfOk result (λ pool. IsQuantilePool factors.above factors.below pool (xs ++ ys)) }
    {
        if self.count() < other.count() {
            other.with(&self, factors)
        } else {
            self.with(&other, factors)
        }
    }

    /// The least value of a row such that the rows at most there are their share of the weight.
    pub fn least(&self) -> i64
        requires { HasQuantile self.now }
        ensures range { unsigned_abs result ≤ MOST_UNITS }
        ensures quantile { (above below : ℕ) (rows : List Row) → IsQuantilePool above below self.now rows → IsQuantile above below rows result }
    {
        match self.low.peek() {
            Some(top) => top.value,
            None => unreachable!(),
        }
    }

    /// How many rows there are.
    fn count(&self) -> usize {
        self.low.len().saturating_add(self.high.len())
    }

    /// The pool with the rows of the other one besides its own.
    fn with(mut self, other: &QuantilePool, factors: Factors) -> Result<QuantilePool, AllocError>
        requires factors { AreFactors factors.above factors.below }
        requires split { IsSplit self }
        requires weight { self.weight + pool_sum (λ e. e.weight) other.now ≤ MOST_WEIGHT }
        ensures balanced { IfOk result (λ pool. IsBalanced factors.above factors.below pool) }
        ensures rows { IfOk result (λ pool. (f : Entry → ℕ) → pool_sum f pool ≡ pool_sum f self + pool_sum f other.now) }
    {
        self.insert_low(other.low.as_slice())?;
        self.insert_high(other.high.as_slice())?;
        self.balance(factors)?;
        Ok(self)
    }

    /// Puts in the rows.
    fn insert_rows(&mut self, rows: &[Row]) -> Result<(), AllocError>
        requires split { IsSplit self.old }
        requires weight { self.old.weight + total_weight rows.now ≤ MOST_WEIGHT }
        ensures split { OnOk result (IsSplit self.new) }
        ensures rows { OnOk result ((f : Entry → ℕ) → pool_sum f self.new ≡ pool_sum f self.old + sum_by (λ r. f (entry_of r)) rows.now) }
    {
        for row in rows {
            self.insert(Entry {
                value: row.value,
                weight: row.weight,
            })?;
        }
        Ok(())
    }

    /// Puts in rows of another pool's lower side.
    fn insert_low(&mut self, entries: &[Entry]) -> Result<(), AllocError>
        requires split { IsSplit self.old }
        requires weight { self.old.weight + sum_by (λ e. e.weight) entries.now ≤ MOST_WEIGHT }
        ensures split { OnOk result (IsSplit self.new) }
        ensures rows { OnOk result ((f : Entry → ℕ) → pool_sum f self.new ≡ pool_sum f self.old + sum_by f entries.now) }
    {
        for entry in entries {
            self.insert(*entry)?;
        }
        Ok(())
    }

    /// Puts in rows of another pool's upper side.
    fn insert_high(&mut self, entries: &[Reverse<Entry>]) -> Result<(), AllocError>
        requires split { IsSplit self.old }
        requires weight { self.old.weight + sum_by (λ e. e.0.weight) entries.now ≤ MOST_WEIGHT }
        ensures split { OnOk result (IsSplit self.new) }
        ensures rows { OnOk result ((f : Entry → ℕ) → pool_sum f self.new ≡ pool_sum f self.old + sum_by (λ e. f e.0) entries.now) }
    {
        for entry in entries {
            self.insert(entry.0)?;
        }
        Ok(())
    }

    /// Puts a row in on its side.
    fn insert(&mut self, entry: Entry) -> Result<(), AllocError>
        requires split { IsSplit self.old }
        requires weight { self.old.weight + entry.weight ≤ MOST_WEIGHT }
        ensures split { OnOk result (IsSplit self.new) }
        ensures rows { OnOk result ((f : Entry → ℕ) → pool_sum f self.new ≡ pool_sum f self.old + f entry) }
    {
        let is_high = self.is_high(entry);
        self.weight += entry.weight;
        if is_high {
            self.high.push(Reverse(entry))?;
        } else {
            self.low_weight += entry.weight;
            self.low.push(entry)?;
        }
        Ok(())
    }

    /// Whether the row goes to the upper side: where it lies above a row there, or above all of the lower
    /// side.
    fn is_high(&self, entry: Entry) -> bool
        requires { IsSplit self.now }
        ensures high { IsTrue result → All (λ x. x.value ≤ℤ entry.value) (heap_items self.now.low) }
        ensures low { result ≡ false → All (λ y. entry.value ≤ℤ y.0.value) (heap_items self.now.high) }
    {
        self.is_above_least(entry) || self.is_above_top(entry)
    }

    /// Whether the row lies above the least one of the upper side.
    fn is_above_least(&self, entry: Entry) -> bool
        requires { IsSplit self.now }
        ensures high { IsTrue result → All (λ x. x.value ≤ℤ entry.value) (heap_items self.now.low) }
        ensures low { result ≡ false → All (λ y. entry.value ≤ℤ y.0.value) (heap_items self.now.high) }
    {
        match self.high.peek() {
            Some(least) => least.0.value < entry.value,
            None => false,
        }
    }

    /// Whether the row lies above the greatest one of the lower side.
    fn is_above_top(&self, entry: Entry) -> bool
        requires { IsSplit self.now }
        ensures { IsTrue result → All (λ x. x.value ≤ℤ entry.value) (heap_items self.now.low) }
    {
        match self.low.peek() {
            Some(top) => top.value < entry.value,
            None => false,
        }
    }

    /// Moves rows across until the lower side is the share, and less lies below each of its rows.
    fn balance(&mut self, factors: Factors) -> Result<(), AllocError>
        requires factors { AreFactors factors.above factors.below }
        requires split { IsSplit self.old }
        requires weight { self.old.weight ≤ MOST_WEIGHT }
        ensures balanced { OnOk result (IsBalanced factors.above factors.below self.new) }
        ensures rows { OnOk result ((f : Entry → ℕ) → pool_sum f self.new ≡ pool_sum f self.old) }
    {
        self.shed(factors)?;
        self.fill(factors)
    }

    /// Moves the greatest rows of the lower side up, while it is the share without them.
    fn shed(&mut self, factors: Factors) -> Result<(), AllocError>
        requires factors { AreFactors factors.above factors.below }
        requires split { IsSplit self.old }
        requires weight { self.old.weight ≤ MOST_WEIGHT }
        ensures split { OnOk result (IsSplit self.new) }
        ensures least { OnOk result (IsLeastShare factors.above factors.below self.new) }
        ensures rows { OnOk result ((f : Entry → ℕ) → pool_sum f self.new ≡ pool_sum f self.old) }
    {
        while self.has_surplus(factors) {
            self.raise()?;
        }
        Ok(())
    }

    /// Moves the least rows of the upper side down, until the lower side is the share.
    fn fill(&mut self, factors: Factors) -> Result<(), AllocError>
        requires factors { AreFactors factors.above factors.below }
        requires split { IsSplit self.old }
        requires weight { self.old.weight ≤ MOST_WEIGHT }
        requires least { IsLeastShare factors.above factors.below self.old }
        ensures balanced { OnOk result (IsBalanced factors.above factors.below self.new) }
        ensures rows { OnOk result ((f : Entry → ℕ) → pool_sum f self.new ≡ pool_sum f self.old) }
    {
        while !self.is_share(factors, self.low_weight) {
            self.lower()?;
        }
        Ok(())
    }

    /// Whether rows of this weight are the share of all.
    fn is_share(&self, factors: Factors, weight: u64) -> bool
        requires factors { AreFactors factors.above factors.below }
        requires all { self.now.weight ≤ MOST_WEIGHT }
        requires weight { weight ≤ MOST_WEIGHT }
        ensures { IsTrue result ↔ (factors.above * self.now.weight ≤ (factors.above + factors.below) * weight) }
    {
        factors.above * self.weight <= (factors.above + factors.below) * weight
    }

    /// Whether the lower side is the share without its greatest row.
    fn has_surplus(&self, factors: Factors) -> bool
        requires factors { AreFactors factors.above factors.below }
        requires split { IsSplit self.now }
        requires weight { self.now.weight ≤ MOST_WEIGHT }
        ensures some { IsTrue result → 0 < heap_len self.now.low }
        ensures none { result ≡ false → IsLeastShare factors.above factors.below self.now }
    {
        match self.low.peek() {
            Some(top) => self.is_share(factors, self.low_weight - top.weight),
            None => false,
        }
    }

    /// Moves the greatest row of the lower side up.
    fn raise(&mut self) -> Result<(), AllocError>
        requires split { IsSplit self.old }
        requires some { 0 < heap_len self.old.low }
        ensures split { OnOk result (IsSplit self.new) }
        ensures rows { OnOk result ((f : Entry → ℕ) → pool_sum f self.new ≡ pool_sum f self.old) }
        ensures fewer { OnOk result (heap_len self.new.low < heap_len self.old.low) }
    {
        let Some(top) = self.low.pop() else {
            unreachable!();
        };
        self.low_weight -= top.weight;
        self.high.push(Reverse(top))?;
        Ok(())
    }

    /// Moves the least row of the upper side down.
    fn lower(&mut self) -> Result<(), AllocError>
        requires split { IsSplit self.old }
        requires weight { self.old.weight ≤ MOST_WEIGHT }
        requires some { 0 < heap_len self.old.high }
        ensures split { OnOk result (IsSplit self.new) }
        ensures rows { OnOk result ((f : Entry → ℕ) → pool_sum f self.new ≡ pool_sum f self.old) }
        ensures fewer { OnOk result (heap_len self.new.high < heap_len self.old.high) }
        ensures below { OnOk result (All (λ x. low_sum (entry_under x.value) self.new ≤ self.old.low_weight) (heap_items self.new.low)) }
    {
        let Some(least) = self.high.pop() else {
            unreachable!();
        };
        self.low_weight += least.0.weight;
        self.low.push(least.0)?;
        Ok(())
    }
}
