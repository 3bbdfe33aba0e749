ghost use Rattle.std.specs.Prelude.{◌≡◌, ℕ, ◌+◌, ◌^◌, ◌<◌, ◌↔◌, slice_index, IsTrue, IfOk, Contains};
ghost use Rattle.ofit_outside.specs.Counting.{risen};

use std::alloc::{AllocError, Global};

/// Which calls are to fail, by their numbers from 1.
#[derive(Drop)]
pub(crate) struct Schedule {
    pub(crate) fails: Vec<u64>,
    /// How many calls there were, until it stands at its greatest value: no later call has a number that
    /// `fails` could hold.
    pub(crate) calls: u64,
    ghost in_range: { (k : ℕ) → slice_index fails.items k < 2 ^ 64 },
}

impl Schedule {
    pub(crate) fn new(alloc: Global, fails: &[u64]) -> Result<Schedule, AllocError>
        ensures fails { IfOk result (λ schedule. schedule.fails.items ≡ fails.now) }
        ensures calls { IfOk result (λ schedule. schedule.calls ≡ 0) }
    {
        Ok(Schedule {
            fails: fails.to_vec(alloc)?,
            calls: 0,
        })
    }

    /// Counts a call, and tells whether it is to fail.
    pub(crate) fn call(&mut self) -> bool
        ensures listed { IsTrue result ↔ Contains self.old.fails.items (self.old.calls + 1) }
        ensures calls { self.new.calls ≡ risen self.old.calls }
        ensures fails { self.new.fails ≡ self.old.fails }
    {
        match self.calls.checked_add(1) {
            Some(number) => {
                self.calls = number;
                self.fails.contains(&number)
            }
            None => false,
        }
    }
}
