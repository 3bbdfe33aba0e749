ghost use Rattle.ofit_study.specs.EditLimits.{as_edit_fault};
ghost use Rattle.std.specs.Prelude.{◌≡◌};

use crate::edit::{Edit, End};
use crate::fault::{AddFault, EditFault};
use crate::study::Study;
use ofit_num::{MOST_PAIRS, MOST_WEIGHT};

/// The fault of an edit that adds a row.
fn edit_fault(fault: AddFault) -> EditFault
    ensures { result ≡ as_edit_fault fault }
{
    match fault {
        AddFault::TooManyRows => EditFault::TooManyRows,
        AddFault::TooHeavy => EditFault::TooHeavy,
        AddFault::TooManyGroups => EditFault::TooManyGroups,
        AddFault::Memory => EditFault::Memory,
    }
}

impl Study {
    ghost use Rattle.ofit_num.specs.declared.limits.TheConstants.{MOST_WEIGHT};
    ghost use Rattle.std.specs.Prelude.{◌≡◌, ◌≤◌, ◌↔◌, ℤ, Contains, IsTrue, IfErr, OnOk};
    ghost use Rattle.ofit_study.specs.declared.edit.Edit.TheVariants.{Add, Remove, Value, Weight, Relate, Unrelate};
    ghost use Rattle.ofit_study.specs.Edited.{IsAccepted, IsInUse, IsRefusal};
    ghost use Rattle.ofit_study.specs.EditLimits.{IsEditInLimits};
    ghost use Rattle.ofit_study.specs.Study.{names_of};

    /// Whether the group of this name has one row, and a pair names it.
    fn is_in_use(&self, name: &[u8]) -> bool
        requires { Contains (names_of self.now) name.now }
        ensures { IsTrue result ↔ IsInUse self.now name.now }
    {
        self.keeps_limits();
        match self.place_of(name) {
            Some(place) => self.rows_of(place).len() == 1 && !self.pairs_at(place).is_empty(),
            None => unreachable!(),
        }
    }

    /// Why no row of this name and weight is taken, if so.
    fn check_added(&self, name: &[u8], weight: u64) -> Result<(), EditFault>
        ensures accepted { OnOk result ((value : ℤ) → IsAccepted self.now (Add name.now value weight)) }
        ensures refused { IfErr result (λ fault. (value : ℤ) → IsRefusal self.now (Add name.now value weight) fault) }
    {
        match self.place_for(name, weight) {
            Ok(_) => Ok(()),
            Err(fault) => Err(edit_fault(fault)),
        }
    }

    /// Why the row of a number can't be taken away, if so.
    fn check_removed(&self, number: u32) -> Result<(), EditFault>
        ensures accepted { OnOk result (IsAccepted self.now (Remove number)) }
        ensures refused { IfErr result (IsRefusal self.now (Remove number)) }
    {
        let Some(index) = self.row_index(number) else {
            return Err(EditFault::NoRow);
        };
        if self.is_in_use(self.row_at(index).0) {
            return Err(EditFault::GroupInUse);
        }
        Ok(())
    }

    /// Why the row of a number can't get another value, if so.
    fn check_value(&self, number: u32) -> Result<(), EditFault>
        ensures accepted { OnOk result ((value : ℤ) → IsAccepted self.now (Value number value)) }
        ensures refused { IfErr result (λ fault. (value : ℤ) → IsRefusal self.now (Value number value) fault) }
    {
        match self.row_index(number) {
            Some(_) => Ok(()),
            None => Err(EditFault::NoRow),
        }
    }

    /// Why the row of a number can't get this weight, if so.
    fn check_weight(&self, number: u32, weight: u64) -> Result<(), EditFault>
        requires { weight ≤ MOST_WEIGHT }
        ensures accepted { OnOk result (IsAccepted self.now (Weight number weight)) }
        ensures refused { IfErr result (IsRefusal self.now (Weight number weight)) }
    {
        self.keeps_limits();
        let Some(index) = self.row_index(number) else {
            return Err(EditFault::NoRow);
        };
        let row = self.row_at(index).1;
        if self.total_weight() - row.weight + weight > MOST_WEIGHT {
            return Err(EditFault::TooHeavy);
        }
        Ok(())
    }

    /// Why a pair of these groups isn't taken, if so.
    fn check_related(&self, low: &[u8], high: &[u8]) -> Result<(), EditFault>
        ensures accepted { OnOk result (IsAccepted self.now (Relate low.now high.now)) }
        ensures refused { IfErr result (IsRefusal self.now (Relate low.now high.now)) }
    {
        self.keeps_limits();
        let Some(low) = self.place_of(low) else {
            return Err(EditFault::NoGroup(End::Low));
        };
        let Some(high) = self.place_of(high) else {
            return Err(EditFault::NoGroup(End::High));
        };
        if self.pair_index(low, high).is_some() {
            return Err(EditFault::PairPresent);
        }
        if self.pair_count() >= MOST_PAIRS {
            return Err(EditFault::TooManyPairs);
        }
        Ok(())
    }

    /// Why a pair of these groups can't be taken away, if so.
    fn check_unrelated(&self, low: &[u8], high: &[u8]) -> Result<(), EditFault>
        ensures accepted { OnOk result (IsAccepted self.now (Unrelate low.now high.now)) }
        ensures refused { IfErr result (IsRefusal self.now (Unrelate low.now high.now)) }
    {
        self.keeps_limits();
        let Some(low) = self.place_of(low) else {
            return Err(EditFault::PairAbsent);
        };
        let Some(high) = self.place_of(high) else {
            return Err(EditFault::PairAbsent);
        };
        match self.pair_index(low, high) {
            Some(_) => Ok(()),
            None => Err(EditFault::PairAbsent),
        }
    }

    /// The first reason why the study doesn't take an edit, if there is one. It takes no memory.
    pub(crate) fn check_edit(&self, edit: &Edit) -> Result<(), EditFault>
        requires { IsEditInLimits edit.now }
        ensures accepted { OnOk result (IsAccepted self.now edit.now) }
        ensures refused { IfErr result (IsRefusal self.now edit.now) }
    {
        match edit {
            Edit::Add { group, weight, .. } => self.check_added(group.bytes(), *weight),
            Edit::Remove { number } => self.check_removed(*number),
            Edit::Value { number, .. } => self.check_value(*number),
            Edit::Weight { number, weight } => self.check_weight(*number, *weight),
            Edit::Relate { low, high } => self.check_related(low.bytes(), high.bytes()),
            Edit::Unrelate { low, high } => self.check_unrelated(low.bytes(), high.bytes()),
        }
    }
}
