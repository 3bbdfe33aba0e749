use crate::edit::Edit;
use crate::fault::EditFault;
use crate::study::{RowChange, Study};
use ofit_num::Row;
use std::alloc::AllocError;

impl Study {
    ghost use Rattle.ofit_num.specs.declared.limits.TheConstants.{MOST_UNITS, MOST_WEIGHT};
    ghost use Rattle.std.specs.Prelude.{◌≡◌, ◌≤◌, ◌<◌, ◌⊎◌, ◌↔◌, unsigned_abs, length, IsTrue, IfOk, IfErr, OnOk, MatchOption};
    ghost use Rattle.ofit_study.specs.declared.edit.Edit.TheVariants.{Add, Remove, Value, Weight};
    ghost use Rattle.ofit_study.specs.declared.fault.EditFault.TheVariants.{Memory};
    ghost use Rattle.ofit_study.specs.Change.{HasBefore, IsChangeFor, KeepsFirstRows};
    ghost use Rattle.ofit_study.specs.Edited.{IsAccepted, IsRefusal};
    ghost use Rattle.ofit_study.specs.EditLimits.{IsEditInLimits};
    ghost use Rattle.ofit_study.specs.Kept.{name_at};
    ghost use Rattle.ofit_study.specs.Name.{IsName};
    ghost use Rattle.ofit_study.specs.Study.{names_of};

    /// Whether a row of the group at a place has a number below this one.
    fn stands_before(&self, place: u32, number: u32) -> bool
        requires { place < length (names_of self.now) }
        ensures { IsTrue result ↔ HasBefore self.now (name_at (names_of self.now) place) number }
    {
        self.keeps_limits();
        let rows = self.rows_of(place);
        rows[0].number < number
    }

    /// The change that adds a row, where its group has a row before it.
    fn addition(
        &self,
        name: &[u8],
        value: i64,
        weight: u64,
    ) -> Result<Option<RowChange>, AllocError>
        requires name { IsName name.now }
        requires value { unsigned_abs value ≤ MOST_UNITS }
        requires weight { (1 ≤ weight) × (weight ≤ MOST_WEIGHT) }
        requires accepted { IsAccepted self.now (Add name.now value weight) }
        ensures { IfOk result (λ found. MatchOption found (KeepsFirstRows self.now (Add name.now value weight) → ⊥) (IsChangeFor self.now (Add name.now value weight))) }
    {
        self.keeps_limits();
        let index = self.first_gap();
        let row = Row {
            number: index as u32 + 1,
            value,
            weight,
        };
        match self.place_of(name) {
            Some(place) if self.stands_before(place, row.number) => {
                Ok(Some(self.more_row(index, place, row)?))
            }
            _ => Ok(None),
        }
    }

    /// The change that takes the row of a number away, where its group has a row before it.
    fn removal(&self, number: u32) -> Result<Option<RowChange>, AllocError>
        requires { IsAccepted self.now (Remove number) }
        ensures { IfOk result (λ found. MatchOption found (KeepsFirstRows self.now (Remove number) → ⊥) (IsChangeFor self.now (Remove number))) }
    {
        self.keeps_limits();
        let Some(index) = self.row_index(number) else {
            unreachable!();
        };
        if self.stands_before(self.place_at(index), number) {
            Ok(Some(self.less_row(index)?))
        } else {
            Ok(None)
        }
    }

    /// The change that gives the row of a number another value.
    fn value_change(&self, number: u32, value: i64) -> Result<RowChange, AllocError>
        requires value { unsigned_abs value ≤ MOST_UNITS }
        requires accepted { IsAccepted self.now (Value number value) }
        ensures { IfOk result (IsChangeFor self.now (Value number value)) }
    {
        self.keeps_limits();
        let Some(index) = self.row_index(number) else {
            unreachable!();
        };
        let row = self.row_at(index).1;
        self.other_row(index, Row { value, ..row })
    }

    /// The change that gives the row of a number another weight.
    fn weight_change(&self, number: u32, weight: u64) -> Result<RowChange, AllocError>
        requires weight { (1 ≤ weight) × (weight ≤ MOST_WEIGHT) }
        requires accepted { IsAccepted self.now (Weight number weight) }
        ensures { IfOk result (IsChangeFor self.now (Weight number weight)) }
    {
        self.keeps_limits();
        let Some(index) = self.row_index(number) else {
            unreachable!();
        };
        let row = self.row_at(index).1;
        self.other_row(index, Row { weight, ..row })
    }

    /// The change of one row that an edit is: another value or weight of any row, or a row less or more
    /// that isn't the first of its group. For these there is one; None is answered for other edits that
    /// the study takes, alone. For a value or a weight O(log n) time for n rows, and time linear in the
    /// rows of the group; for a row less or more a copy of the list of rows.
    ///
    /// # Errors
    ///
    /// Those of [`Study::edited`], in the same order.
    pub fn row_change(&self, edit: &Edit) -> Result<Option<RowChange>, EditFault>
        requires { IsEditInLimits edit.now }
        ensures accepted { OnOk result (IsAccepted self.now edit.now) }
        ensures change { IfOk result (λ found. MatchOption found (KeepsFirstRows self.now edit.now → ⊥) (IsChangeFor self.now edit.now)) }
        ensures refused { IfErr result (λ fault. (fault ≡ Memory) ⊎ IsRefusal self.now edit.now fault) }
    {
        self.check_edit(edit)?;
        match edit {
            Edit::Add {
                group,
                value,
                weight,
            } => Ok(self.addition(group.bytes(), *value, *weight)?),
            Edit::Remove { number } => Ok(self.removal(*number)?),
            Edit::Value { number, value } => Ok(Some(self.value_change(*number, *value)?)),
            Edit::Weight { number, weight } => Ok(Some(self.weight_change(*number, *weight)?)),
            Edit::Relate { .. } | Edit::Unrelate { .. } => Ok(None),
        }
    }
}
