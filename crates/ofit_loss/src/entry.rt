ghost use Rattle.std.specs.Prelude.{Some, refl};
ghost use Rattle.std.specs.Cmp;
ghost use Rattle.std.specs.Cmp.{on_total, int_cmp_total};
ghost use Rattle.std.specs.Ordering.{is_eq};
ghost use Rattle.ofit_loss.specs.Entry.{entry_cmp};

use std::cmp::Ordering;

/// A row as a pool keeps it: without its number. Entries go by their values.
#[derive(Clone, Copy)]
pub struct Entry {
    pub(crate) value: i64,
    pub(crate) weight: u64,
}

impl Ord for Entry {
    ghost cmp = { entry_cmp };

    ghost total = { on_total (λ e. e.value) int_cmp_total };

    ghost matches_partial_cmp = { λ x y. refl };

    ghost matches_eq = { λ x y. refl };

    fn cmp(&self, other: &Entry) -> Ordering {
        self.value.cmp(&other.value)
    }
}

impl PartialOrd for Entry {
    ghost partial_cmp = { λ x y. Some (entry_cmp x y) };

    ghost laws = { Cmp.partial_order_from_agreeing_total entry_cmp (on_total (λ e. e.value) int_cmp_total) (λ x y. refl) (λ x y. refl) };

    fn partial_cmp(&self, other: &Entry) -> Option<Ordering> {
        Some(self.cmp(other))
    }
}

impl Eq for Entry {
    ghost laws = { Cmp.eq_by_cmp_equiv (on_total (λ e. e.value) int_cmp_total) };
}

impl PartialEq for Entry {
    ghost eq = { λ x y. is_eq (entry_cmp x y) };

    ghost laws = { Cmp.partial_equiv_from_equiv (Cmp.eq_by_cmp_equiv (on_total (λ e. e.value) int_cmp_total)) };

    fn eq(&self, other: &Entry) -> bool {
        self.cmp(other).is_eq()
    }
}
