use crate::edit::Edit;
use crate::fault::EditFault;
use crate::study::Study;
use ofit_num::Row;
use std::alloc::AllocError;

impl Study {
    ghost use Rattle.ofit_num.specs.declared.limits.TheConstants.{MOST_UNITS, MOST_WEIGHT};
    ghost use Rattle.std.specs.Prelude.{◌≡◌, ◌≤◌, ◌<◌, ◌⊎◌, [], ◌∷◌, ◌++◌, length, unsigned_abs, remove, IfOk, IsErrOf, MatchOption};
    ghost use Rattle.ofit_study.specs.declared.edit.Edit.TheVariants.{Add, Remove, Relate, Unrelate};
    ghost use Rattle.ofit_study.specs.declared.fault.EditFault.TheVariants.{Memory};
    ghost use Rattle.ofit_study.specs.Change.{KeepsFirstRows};
    ghost use Rattle.ofit_study.specs.Edited.{Edited, IsAccepted, IsAfter, groups_numbered};
    ghost use Rattle.ofit_study.specs.EditLimits.{IsEditInLimits};
    ghost use Rattle.ofit_study.specs.Name.{IsName};
    ghost use Rattle.ofit_study.specs.Study.{places_of};

    /// The name of the group of the row of a number. None where no row has it.
    pub fn group_of(&self, number: u32) -> Option<&[u8]>
        ensures { MatchOption result (groups_numbered self.now number ≡ []) (λ name. groups_numbered self.now number ≡ name.now ∷ []) }
    {
        self.keeps_limits();
        match self.row_index(number) {
            Some(index) => Some(self.row_at(index).0),
            None => None,
        }
    }

    /// The study with a row more.
    fn with_added(&self, name: &[u8], value: i64, weight: u64) -> Result<Study, AllocError>
        requires name { IsName name.now }
        requires value { unsigned_abs value ≤ MOST_UNITS }
        requires weight { (1 ≤ weight) × (weight ≤ MOST_WEIGHT) }
        requires accepted { IsAccepted self.now (Add name.now value weight) }
        ensures { IfOk result (IsAfter self.now (Add name.now value weight)) }
    {
        self.keeps_limits();
        let index = self.first_gap();
        let row = Row {
            number: index as u32 + 1,
            value,
            weight,
        };
        self.with_row_at(index, index, name, row)
    }

    /// The study without the row of a number.
    fn with_removed(&self, number: u32) -> Result<Study, AllocError>
        requires { IsAccepted self.now (Remove number) }
        ensures { IfOk result (IsAfter self.now (Remove number)) }
    {
        self.keeps_limits();
        let Some(index) = self.row_index(number) else {
            unreachable!();
        };
        self.without_row(index)
    }

    /// The pairs of places, and one more behind them.
    fn pairs_and(&self, pair: (u32, u32)) -> Result<Vec<(u32, u32)>, AllocError>
        ensures { IfOk result (λ pairs. pairs.items ≡ places_of self.now ++ pair ∷ []) }
    {
        let mut pairs = Vec::from_slice(self.allocator(), self.pairs())?;
        pairs.push(pair)?;
        Ok(pairs)
    }

    /// The pairs of places without the one at an index.
    fn pairs_but(&self, index: u32) -> Result<Vec<(u32, u32)>, AllocError>
        requires { index < length (places_of self.now) }
        ensures { IfOk result (λ pairs. pairs.items ≡ remove (places_of self.now) index) }
    {
        let mut pairs = Vec::from_slice(self.allocator(), self.pairs())?;
        pairs.remove(index as usize);
        Ok(pairs)
    }

    /// The study with a pair more.
    fn related(&self, low: &[u8], high: &[u8]) -> Result<Study, AllocError>
        requires { IsAccepted self.now (Relate low.now high.now) }
        ensures { IfOk result (IsAfter self.now (Relate low.now high.now)) }
    {
        self.keeps_limits();
        let Some(low) = self.place_of(low) else {
            unreachable!();
        };
        let Some(high) = self.place_of(high) else {
            unreachable!();
        };
        let pairs = self.pairs_and((low, high))?;
        self.with_pairs(pairs.as_slice())
    }

    /// The study without a pair.
    fn unrelated(&self, low: &[u8], high: &[u8]) -> Result<Study, AllocError>
        requires { IsAccepted self.now (Unrelate low.now high.now) }
        ensures { IfOk result (IsAfter self.now (Unrelate low.now high.now)) }
    {
        self.keeps_limits();
        let Some(low) = self.place_of(low) else {
            unreachable!();
        };
        let Some(high) = self.place_of(high) else {
            unreachable!();
        };
        let Some(index) = self.pair_index(low, high) else {
            unreachable!();
        };
        let pairs = self.pairs_but(index)?;
        self.with_pairs(pairs.as_slice())
    }

    /// The study after an edit that [`Study::row_change`] finds no change of a row in; this study stays.
    /// Expected time linear in the rows, and O(m log m) comparisons of names for m pairs.
    pub fn edited_anew(&self, edit: &Edit) -> Result<Study, AllocError>
        requires limits { IsEditInLimits edit.now }
        requires accepted { IsAccepted self.now edit.now }
        requires other { KeepsFirstRows self.now edit.now → ⊥ }
        ensures { IfOk result (IsAfter self.now edit.now) }
    {
        match edit {
            Edit::Add {
                group,
                value,
                weight,
            } => self.with_added(group.bytes(), *value, *weight),
            Edit::Remove { number } => self.with_removed(*number),
            Edit::Value { .. } | Edit::Weight { .. } => unreachable!(),
            Edit::Relate { low, high } => self.related(low.bytes(), high.bytes()),
            Edit::Unrelate { low, high } => self.unrelated(low.bytes(), high.bytes()),
        }
    }

    /// The study after an edit; this study stays. Expected time linear in the rows and pairs, and for an edit that
    /// isn't a [`Study::row_change`] O(m log m) comparisons of names for m pairs.
    ///
    /// # Errors
    ///
    /// The first that holds of: for a row more, the faults of [`Study::add_row`] in their order; for a row's
    /// removal, value or weight [`EditFault::NoRow`], and then [`EditFault::GroupInUse`] for its removal and
    /// [`EditFault::TooHeavy`] for its weight; for a pair more [`EditFault::NoGroup`] of the low and of the
    /// high end, [`EditFault::PairPresent`] and [`EditFault::TooManyPairs`]; for a pair's removal
    /// [`EditFault::PairAbsent`]. Or want of memory.
    pub fn edited(&self, edit: &Edit) -> Result<Study, EditFault>
        requires { IsEditInLimits edit.now }
        ensures { IsErrOf result Memory ⊎ Edited self.now edit.now result }
    {
        match self.row_change(edit)? {
            Some(mut change) => {
                let mut study = self.copy()?;
                study.exchange(&mut change);
                Ok(study)
            }
            None => Ok(self.edited_anew(edit)?),
        }
    }
}
