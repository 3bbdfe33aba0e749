ghost use Rattle.std.specs.Prelude.{◌≡◌, ◌<◌, [], ◌∷◌, ◌++◌, List, length, IfOk};
ghost use Rattle.ofit_num.specs.declared.row.Row.{Row};
ghost use Rattle.ofit_loss.specs.Rows.{AreFittable};
ghost use Rattle.ofit_loss.specs.Least.{IsLeastMinimiser};
ghost use Rattle.ofit_loss.specs.Pool.{CanMerge};
ghost use Rattle.ofit_tree.specs.Merge.{AreTogether};

use ofit_loss::Loss;
use ofit_num::{Frac, Row};
use std::alloc::{AllocError, Global};
use std::mem;

/// Groups that share one value: the pool of their rows, its least minimiser, the group nearest to the
/// root, and the places of all of them.
#[derive(Drop)]
pub(crate) struct Block<P: Drop> {
    pub pool: P,
    pub value: Frac,
    pub top: u32,
    pub members: Vec<u32>,
}

/// The block of one group's rows.
pub(crate) fn lone_block<L: Loss>(
    alloc: Global,
    rows: &[Row],
    place: u32,
) -> Result<Block<L::Pool>, AllocError>
    requires fittable { AreFittable rows.now }
    requires some { 0 < length rows.now }
    ensures pool { IfOk result (λ block. L.IsPoolOf block.pool rows.now) }
    ensures value { IfOk result (λ block. IsLeastMinimiser L.meaning L.STRICT rows.now block.value) }
    ensures top { IfOk result (λ block. block.top ≡ place) }
    ensures members { IfOk result (λ block. block.members.items ≡ place ∷ []) }
{
    let pool = L::pool_of(alloc, rows)?;
    let value = L::least(&pool);
    let members = vec![in alloc; place]?;
    Ok(Block {
        pool,
        value,
        top: place,
        members,
    })
}

/// A block and a child block as one, at the value that pools them. The shorter list of places is put
/// to the end of the longer one.
pub(crate) fn merge<L: Loss>(
    upper: Block<L::Pool>,
    child: Block<L::Pool>,
) -> Result<Block<L::Pool>, AllocError>
    requires pools { CanMerge L.IsPoolOf upper.pool child.pool }
    ensures pool { (xs ys : List Row) → L.IsPoolOf upper.pool xs → L.IsPoolOf child.pool ys → IfOk result (λ block. L.IsPoolOf block.pool (xs ++ ys)) }
    ensures value { (xs ys : List Row) → L.IsPoolOf upper.pool xs → L.IsPoolOf child.pool ys → AreFittable (xs ++ ys) → 0 < length (xs ++ ys)
        → IfOk result (λ block. IsLeastMinimiser L.meaning L.STRICT (xs ++ ys) block.value) }
    ensures top { IfOk result (λ block. block.top ≡ upper.top) }
    ensures members { IfOk result (λ block. AreTogether upper.members.items child.members.items block.members.items) }
{
    let Block {
        pool: upper_pool,
        value: _,
        top,
        members: mut members,
    } = upper;
    let Block {
        pool: child_pool,
        value: _,
        top: _,
        members: mut others,
    } = child;
    if members.len() < others.len() {
        mem::swap(&mut members, &mut others);
    }
    members.append(&mut others)?;
    let pool = L::join(upper_pool, child_pool)?;
    let value = L::least(&pool);
    Ok(Block {
        pool,
        value,
        top,
        members,
    })
}
