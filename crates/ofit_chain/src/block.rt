ghost use Rattle.std.specs.Prelude.{◌≡◌, ◌+◌, ◌<◌, ◌^◌, List, length, ◌++◌, IfOk};
ghost use Rattle.ofit_num.specs.declared.row.Row.{Row};
ghost use Rattle.ofit_loss.specs.Rows.{AreFittable};
ghost use Rattle.ofit_loss.specs.Least.{IsLeastMinimiser};
ghost use Rattle.ofit_loss.specs.Pool.{CanMerge};

use ofit_loss::Loss;
use ofit_num::{Frac, Row};
use std::alloc::{AllocError, Global};

/// Neighbouring groups that share one value: the pool of their rows, its least minimiser, and how
/// many groups they are.
#[derive(Drop)]
pub(crate) struct Block<P: Drop> {
    pub pool: P,
    pub value: Frac,
    pub groups: u64,
}

/// The block of one group's rows.
pub(crate) fn block_of<L: Loss>(alloc: Global, rows: &[Row]) -> Result<Block<L::Pool>, AllocError>
    requires fittable { AreFittable rows.now }
    requires some { 0 < length rows.now }
    ensures pool { IfOk result (λ block. L.IsPoolOf block.pool rows.now) }
    ensures value { IfOk result (λ block. IsLeastMinimiser L.meaning L.STRICT rows.now block.value) }
    ensures groups { IfOk result (λ block. block.groups ≡ 1) }
{
    let pool = L::pool_of(alloc, rows)?;
    let value = L::least(&pool);
    Ok(Block {
        pool,
        value,
        groups: 1,
    })
}

/// Two neighbouring blocks as one, at the value that pools them.
pub(crate) fn merge<L: Loss>(
    left: Block<L::Pool>,
    right: Block<L::Pool>,
) -> Result<Block<L::Pool>, AllocError>
    requires pools { CanMerge L.IsPoolOf left.pool right.pool }
    requires groups { left.groups + right.groups < 2 ^ 64 }
    ensures pool { (xs ys : List Row) → L.IsPoolOf left.pool xs → L.IsPoolOf right.pool ys → IfOk result (λ block. L.IsPoolOf block.pool (xs ++ ys)) }
    ensures value { (xs ys : List Row) → L.IsPoolOf left.pool xs → L.IsPoolOf right.pool ys → AreFittable (xs ++ ys) → 0 < length (xs ++ ys)
        → IfOk result (λ block. IsLeastMinimiser L.meaning L.STRICT (xs ++ ys) block.value) }
    ensures groups { IfOk result (λ block. block.groups ≡ left.groups + right.groups) }
{
    let groups = left.groups + right.groups;
    let pool = L::join(left.pool, right.pool)?;
    let value = L::least(&pool);
    Ok(Block {
        pool,
        value,
        groups,
    })
}
