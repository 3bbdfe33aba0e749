ghost use Rattle.std.specs.Prelude.{◌≡◌, List, length, IfOk, OnOk, OnErr, IfSome, IfNone, vec_len, ◌++◌, [], ◌∷◌, false};
ghost use Rattle.ofit_num.specs.Fraction.{AtMost};
ghost use Rattle.ofit_num.specs.Below.{Below};
ghost use Rattle.ofit_num.specs.Groups.{RowLists};
ghost use Rattle.ofit_num.specs.RowTotals.{all_rows};
ghost use Rattle.ofit_num.specs.Trial.{trial_of};
ghost use Rattle.ofit_num.specs.Fit.{LeastBestValues};
ghost use Rattle.ofit_num.specs.Settled.{IsSettled, IsLeastSettled};
ghost use Rattle.ofit_loss.specs.Rows.{AreFittable};
ghost use Rattle.ofit_chain.specs.Chain.{chain_problem};
ghost use Rattle.ofit_chain.specs.Stacked.{Holds, CanHold};
ghost use Rattle.ofit_chain.specs.declared.block.Block.{Block};

use crate::block::{Block, block_of, merge};
use ofit_loss::Loss;
use ofit_num::{Frac, Row};
use std::alloc::{AllocError, Global};
use std::cmp::Ordering;

/// The fit of a chain whose groups come one after another: blocks of neighbours that share a value,
/// which rises from block to block. It tells the values at any time.
///
/// A group that is pushed absorbs the blocks before it while their values are not below its own
/// (Ayer, Brunk, Ewing, Reid and Silverman, 1955). So n groups are joined at most n - 1 times.
#[derive(Drop)]
pub struct Stack<L: Loss> {
    alloc: Global,
    blocks: Vec<Block<L::Pool>>,
}

/// Takes the last block off the stack, if its value is not below the given one.
fn take_above<P: Drop>(stack: &mut Vec<Block<P>>, value: &Frac) -> Option<Block<P>>
    ensures some { IfSome result (λ last. stack.old.items ≡ stack.new.items ++ last ∷ []) }
    ensures at_least { IfSome result (λ last. AtMost value.now last.value) }
    ensures none { IfNone result (stack.new.items ≡ stack.old.items) }
    ensures below { IfNone result ((rest : List (Block P)) (last : Block P) → stack.old.items ≡ rest ++ last ∷ [] → Below last.value value.now) }
{
    let last = stack.last()?;
    if last.value.compare(value) == Ordering::Less {
        return None;
    }
    stack.pop()
}

impl<L: Loss> Stack<L> {
    /// The stack of no groups. It takes no memory.
    pub fn new(alloc: Global) -> Stack<L>
        ensures { Holds L.IsPoolOf L.meaning L.STRICT [] result }
    {
        Stack {
            alloc,
            blocks: Vec::new(alloc),
        }
    }

    /// Puts the rows on as one more group. After want of memory the stack has no groups.
    pub fn push(&mut self, rows: &[Row]) -> Result<(), AllocError>
        requires { CanHold L.IsPoolOf L.meaning L.STRICT self.old rows.now }
        ensures ok { (groups : RowLists) → Holds L.IsPoolOf L.meaning L.STRICT groups self.old → AreFittable (all_rows (groups ++ rows.now ∷ []))
            → OnOk result (Holds L.IsPoolOf L.meaning L.STRICT (groups ++ rows.now ∷ []) self.new) }
        ensures err { OnErr result (Holds L.IsPoolOf L.meaning L.STRICT [] self.new) }
    {
        match self.absorb(rows) {
            Ok(()) => Ok(()),
            Err(error) => {
                self.blocks.clear();
                Err(error)
            }
        }
    }

    /// The values of the groups, one a group, in the order in which they were pushed: each is at most
    /// the next one, the loss of all rows at their groups' values is least, and pointwise they are the
    /// least of such values.
    pub fn values(&self, alloc: Global) -> Result<Vec<Frac>, AllocError>
        ensures count { (groups : RowLists) → Holds L.IsPoolOf L.meaning L.STRICT groups self.now → IfOk result (λ values. vec_len values ≡ length groups) }
        ensures least_best { (groups : RowLists) → Holds L.IsPoolOf L.meaning L.STRICT groups self.now
            → IfOk result (λ values. LeastBestValues L.meaning (chain_problem groups) values.items) }
        ensures settled { (groups : RowLists) → Holds L.IsPoolOf L.meaning L.STRICT groups self.now
            → IfOk result (λ values. IsSettled L.meaning (chain_problem groups) (trial_of values.items)) }
        ensures least_settled { (groups : RowLists) → Holds L.IsPoolOf L.meaning L.STRICT groups self.now
            → IfOk result (λ values. L.STRICT ≡ false → IsLeastSettled L.meaning (chain_problem groups) (trial_of values.items)) }
    {
        let mut values = Vec::new(alloc);
        for block in &self.blocks {
            for _ in 0..block.groups {
                values.push(block.value)?;
            }
        }
        Ok(values)
    }

    /// Puts the rows on as one more group, whose block absorbs those before it.
    fn absorb(&mut self, rows: &[Row]) -> Result<(), AllocError>
        requires { CanHold L.IsPoolOf L.meaning L.STRICT self.old rows.now }
        ensures { (groups : RowLists) → Holds L.IsPoolOf L.meaning L.STRICT groups self.old → AreFittable (all_rows (groups ++ rows.now ∷ []))
            → OnOk result (Holds L.IsPoolOf L.meaning L.STRICT (groups ++ rows.now ∷ []) self.new) }
    {
        let mut block = block_of::<L>(self.alloc, rows)?;
        while let Some(last) = take_above(&mut self.blocks, &block.value) {
            block = merge::<L>(last, block)?;
        }
        self.blocks.push(block)?;
        Ok(())
    }
}
