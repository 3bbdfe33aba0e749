ghost use Rattle.std.specs.Prelude.{◌≡◌, ◌<◌, ℕ, List, All, Any, IfOk, length, map};
ghost use Rattle.std.specs.List.{AllPairs, flat_map};
ghost use Rattle.ofit_num.specs.RowTotals.{all_rows};
ghost use Rattle.ofit_loss.specs.Rows.{AreFittable, IsPlain};
ghost use Rattle.ofit_partition.specs.Piece.{partition_problem, rows_of};
ghost use Rattle.ofit_partition.specs.Cut.{IsPooledValue};

use ofit_loss::Loss;
use ofit_num::{Frac, Groups, Row};
use std::alloc::{AllocError, Global};

/// For each of some places the least and the greatest balance of its rows at one value.
pub(crate) struct Ends {
    pub least: Vec<i128>,
    pub greatest: Vec<i128>,
}

/// Written out, so that a proof meets one call where a value is let go.
impl Drop for Ends {
    fn drop(self) {
        let Ends { least, greatest } = self;
        drop(least);
        drop(greatest);
    }
}

/// The rows of the groups at these places.
fn rows_at(alloc: Global, groups: &Groups, places: &[u32]) -> Result<Vec<Row>, AllocError>
    requires { All (λ g. g < length groups.now) places.now }
    ensures { IfOk result (λ rows. rows.items ≡ flat_map (rows_of groups.now) places.now) }
{
    let mut rows = Vec::new(alloc);
    for place in places {
        rows.extend_from_slice(groups.rows(*place))?;
    }
    Ok(rows)
}

/// The least minimiser of the rows of the groups at these places.
pub(crate) fn pooled_value<L: Loss>(
    alloc: Global,
    groups: &Groups,
    places: &[u32],
) -> Result<Frac, AllocError>
    requires plain { All (λ rows. Any IsPlain rows) groups.now }
    requires fittable { AreFittable (all_rows groups.now) }
    requires rising { AllPairs (λ x y. x < y) places.now }
    requires below { All (λ g. g < length groups.now) places.now }
    requires some { 0 < length places.now }
    ensures { IfOk result (λ value. (pairs : List (ℕ × ℕ)) → IsPooledValue L.meaning (partition_problem groups.now pairs) L.STRICT places.now value) }
{
    let rows = rows_at(alloc, groups, places)?;
    let pool = L::pool_of(alloc, &rows)?;
    Ok(L::least(&pool))
}

/// The ends of the balances of the groups at these places.
pub(crate) fn ends_at<L: Loss>(
    alloc: Global,
    groups: &Groups,
    places: &[u32],
    value: &Frac,
) -> Result<Ends, AllocError>
    requires fittable { AreFittable (all_rows groups.now) }
    requires below { All (λ g. g < length groups.now) places.now }
    ensures least { IfOk result (λ ends. ends.least.items ≡ map (λ g. L.meaning.least (rows_of groups.now g) value.now.num value.now.den) places.now) }
    ensures greatest { IfOk result (λ ends. ends.greatest.items ≡ map (λ g. L.meaning.greatest (rows_of groups.now g) value.now.num value.now.den) places.now) }
{
    let mut least = Vec::new(alloc);
    let mut greatest = Vec::new(alloc);
    for place in places {
        let (low, high) = L::span(groups.rows(*place), value);
        least.push(low)?;
        greatest.push(high)?;
    }
    Ok(Ends { least, greatest })
}
