use crate::fault::AddFault;
use crate::study::Study;
use ofit_num::{MOST_GROUPS, MOST_ROWS, MOST_WEIGHT, Row};

impl Study {
    ghost use Rattle.ofit_num.specs.declared.limits.TheConstants.{MOST_UNITS, MOST_WEIGHT};
    ghost use Rattle.std.specs.Prelude.{◌≡◌, ◌≢◌, ◌≤◌, ◌<◌, ◌+◌, ◌-◌, unsigned_abs, IfOk, OnOk, OnErr, IfErr};
    ghost use Rattle.ofit_study.specs.declared.fault.AddFault.TheVariants as add;
    ghost use Rattle.ofit_study.specs.Adding.{IsTaken, IsRefused};
    ghost use Rattle.ofit_study.specs.Added.{IsPlaceOf};
    ghost use Rattle.ofit_study.specs.Name.{IsName};
    ghost use Rattle.ofit_study.specs.Study.{GainsRow};

    /// Puts a row after the others, in the group with the name; a new name makes a group after the
    /// others. The row gets the least number from 1 on that no row has. Expected constant amortised
    /// time.
    ///
    /// # Errors
    ///
    /// The first limit that keeps the row out, or want of memory; then the study is as before.
    pub fn add_row(&mut self, name: &[u8], value: i64, weight: u64) -> Result<(), AddFault>
        requires name { IsName name.now }
        requires value { unsigned_abs value ≤ MOST_UNITS }
        requires weight { (1 ≤ weight) × (weight ≤ MOST_WEIGHT) }
        ensures added { OnOk result (GainsRow self.old name.now value weight self.new) }
        ensures taken { OnOk result (IsTaken self.old name.now weight) }
        ensures refused { IfErr result (λ fault. IsRefused self.old name.now weight fault) }
        ensures unchanged { OnErr result (self.new ≡ self.old) }
    {
        let place = match self.place_for(name, weight) {
            Ok(place) => place,
            Err(fault) => return Err(fault),
        };
        let index = self.first_gap();
        let row = Row {
            number: index as u32 + 1,
            value,
            weight,
        };
        let added = if index == self.row_count() as usize {
            self.push_at(place, name, row)
        } else {
            self.insert(index, name, row)
        };
        match added {
            Ok(()) => Ok(()),
            Err(_) => Err(AddFault::Memory),
        }
    }

    /// The place of the group of this name for a row of this weight, None where the name is new; or the
    /// first limit that keeps the row out.
    pub(crate) fn place_for(&self, name: &[u8], weight: u64) -> Result<Option<u32>, AddFault>
        ensures place { IfOk result (λ place. IsPlaceOf self.now name.now place) }
        ensures taken { OnOk result (IsTaken self.now name.now weight) }
        ensures refused { IfErr result (λ fault. IsRefused self.now name.now weight fault) }
        ensures known { IfErr result (λ fault. fault ≢ add.Memory) }
    {
        if self.row_count() >= MOST_ROWS {
            return Err(AddFault::TooManyRows);
        }
        if weight > MOST_WEIGHT - self.total_weight() {
            return Err(AddFault::TooHeavy);
        }
        let place = self.place_near(name);
        if place.is_none() && self.group_count() >= MOST_GROUPS {
            return Err(AddFault::TooManyGroups);
        }
        Ok(place)
    }
}
