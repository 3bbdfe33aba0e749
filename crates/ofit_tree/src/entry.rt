ghost use Rattle.std.specs.Prelude.{◌≡◌, Some, refl, ◌<◌};
ghost use Rattle.std.specs.Cmp;
ghost use Rattle.std.specs.Cmp.{on_total};
ghost use Rattle.std.specs.Ordering.{is_eq};
ghost use Rattle.ofit_num.proofs.FractionOrder.{fraction_total};
ghost use Rattle.ofit_tree.specs.Entry.{entry_cmp, rank_of};

use crate::direction::Direction;
use ofit_num::Frac;
use std::cmp::Ordering;

/// A block that waits, by its number, and its rank: its value where the root is greatest, and the
/// negative of its value where the root is least. The greatest rank is taken up first.
#[derive(Clone, Copy)]
pub(crate) struct Entry {
    pub rank: Frac,
    pub block: u32,
}

impl Ord for Entry {
    ghost cmp = { entry_cmp };

    ghost total = { on_total (λ e. e.rank) fraction_total };

    ghost matches_partial_cmp = { λ x y. refl };

    ghost matches_eq = { λ x y. refl };

    fn cmp(&self, other: &Entry) -> Ordering {
        let _self = self.rank.den();
        let _other = other.rank.den();
        self.rank.compare(&other.rank)
    }
}

impl PartialOrd for Entry {
    ghost partial_cmp = { λ x y. Some (entry_cmp x y) };

    ghost laws = { Cmp.partial_order_from_agreeing_total entry_cmp (on_total (λ e. e.rank) fraction_total) (λ x y. refl) (λ x y. refl) };

    fn partial_cmp(&self, other: &Entry) -> Option<Ordering> {
        Some(self.cmp(other))
    }
}

impl Eq for Entry {
    ghost laws = { Cmp.eq_by_cmp_equiv (on_total (λ e. e.rank) fraction_total) };
}

impl PartialEq for Entry {
    ghost eq = { λ x y. is_eq (entry_cmp x y) };

    ghost laws = { Cmp.partial_equiv_from_equiv (Cmp.eq_by_cmp_equiv (on_total (λ e. e.rank) fraction_total)) };

    fn eq(&self, other: &Entry) -> bool {
        self.cmp(other).is_eq()
    }
}

/// The value where the root is greatest, its negative where it is least.
pub(crate) fn rank_of(direction: Direction, value: &Frac) -> Frac
    ensures { result ≡ rank_of direction value.now }
{
    match direction {
        Direction::RootGreatest => *value,
        Direction::RootLeast => match Frac::make(-value.num(), value.den()) {
            Some(negative) => negative,
            None => unreachable!(),
        },
    }
}
