use crate::anew::{Touch, fit_after, fit_first};
use ofit_cert::certify;
use ofit_fit::{fit_component, put_values};
use ofit_num::{Frac, Tally, tell_lowest};
use ofit_order::Order;
use ofit_report::write_report;
use ofit_sheet::Sheet;
use ofit_study::{Edit, EditFault, RowChange, Study};
use std::alloc::{AllocError, Global};
use std::marker::Model;

/// A study and its fit: the values of least cost within its bounds, and of these the pointwise least.
pub struct Session {
    study: Study,
    order: Order,
    values: Vec<Frac>,
}

/// Written out, so that a proof meets one call where a value is let go.
impl Drop for Session {
    fn drop(self) {
        let Session {
            study,
            order,
            values,
        } = self;
        drop(study);
        drop(order);
        drop(values);
    }
}

impl Model for Session {
    ghost use Rattle.ofit_fit.specs.OrderOf.{IsOrderOf};
    ghost use Rattle.ofit_study.specs.Study.{problem_stated};
    ghost use Rattle.ofit_session.specs.Fitted.{Fitted, IsFit};

    ghost Value = { Fitted };

    ghost view = { λ s. record { study = s.study; values = s.values.items } };

    ghost invariant = { λ s. IsFit s.study s.values.items × IsOrderOf s.order (problem_stated s.study) };
}

impl Session {
    ghost use Rattle.std.specs.Prelude.{◌≡◌, ◌≤◌, ◌<◌, ◌+◌, ◌^◌, ◌⊎◌, ℕ, All, Ok, Some, IfOk, OnOk, OnErr, IfErr, IsSome, length, slice_get};
    ghost use Rattle.ofit_num.specs.Fraction.{IsLowest};
    ghost use Rattle.ofit_num.specs.Sheet.{FitsCount, sheet_values};
    ghost use Rattle.ofit_num.specs.Verdict.{Passes};
    ghost use Rattle.ofit_fit.specs.Counted.{HasComponentCount, HasCutCount};
    ghost use Rattle.ofit_report.specs.ReportText.{ReportText};
    ghost use Rattle.ofit_study.specs.declared.fault.EditFault.TheVariants.{Memory};
    ghost use Rattle.ofit_study.specs.declared.edit.Edit.{Edit};
    ghost use Rattle.ofit_study.specs.Change.{IsChangeFor, IsChangeOf, KeepsFirstRows, changed};
    ghost use Rattle.ofit_study.specs.Edited.{Edited, IsAccepted, IsAfter, IsRefusal};
    ghost use Rattle.ofit_study.specs.EditLimits.{IsEditInLimits};
    ghost use Rattle.ofit_study.specs.Study.{names_of, problem_stated, meaning_of};
    ghost use Rattle.ofit_session.specs.Fitted.{IsFit};
    ghost use Rattle.ofit_session.specs.Refit.{IsRefit};
    ghost use Rattle.ofit_session.specs.CountsAtMost.{CountsAtMost};

    /// The session of a study, which is fitted. The tally counts each of its components. After want of
    /// memory the study is gone.
    pub fn start(alloc: Global, study: Study, tally: &mut Tally) -> Result<Session, AllocError>
        requires room { tally.old.fits ≤ 2 ^ 63 }
        requires room_for_cuts { tally.old.cuts ≤ 2 ^ 63 }
        ensures study { IfOk result (λ session. session.study ≡ study) }
        ensures fit { IfOk result (λ session. IsFit session.study session.values) }
        ensures counted { OnOk result ((n : ℕ) × HasComponentCount (problem_stated study) n × (tally.new.fits ≡ tally.old.fits + n)) }
        ensures limited { OnErr result ((n : ℕ) → HasComponentCount (problem_stated study) n → tally.new.fits ≤ tally.old.fits + n) }
        ensures grown { tally.old.fits ≤ tally.new.fits }
        ensures cuts { OnOk result ((n : ℕ) × HasCutCount (problem_stated study) n × (tally.new.cuts ≡ tally.old.cuts + n)) }
        ensures grown_cuts { tally.old.cuts ≤ tally.new.cuts }
        ensures fewer_cuts { tally.new.cuts + tally.old.fits ≤ tally.old.cuts + tally.new.fits }
    {
        let (order, values) = fit_first(alloc, &study, tally)?;
        Ok(Session {
            study,
            order,
            values,
        })
    }

    /// The study as it stands.
    pub fn study(&self) -> &Study
        ensures study { result.now ≡ self.now.study }
        ensures fit { IsFit self.now.study self.now.values }
    {
        &self.study
    }

    /// The value of the group at a place.
    pub fn value(&self, place: u32) -> Frac
        requires { place < length (names_of self.now.study) }
        ensures { slice_get self.now.values place ≡ Some result }
    {
        self.values[place as usize]
    }

    /// Edits the study. The components that hold a group that the edit touches are fitted anew, and the
    /// tally counts each; all other values stay, by the names of their groups. After a fault the session
    /// is as before. Another value or weight of a row takes time linear in the rows of its group, and that
    /// of the fit of its component; a row less or more a copy of the list of rows besides, where its group
    /// has a row before it; each other edit takes that of
    /// [`Study::edited_anew`], and of the order of the study.
    ///
    /// # Errors
    ///
    /// The first reason why the study doesn't take the edit, and then nothing was fitted; or want of
    /// memory.
    pub fn apply(&mut self, edit: &Edit, tally: &mut Tally) -> Result<Touch, EditFault>
        requires edit { IsEditInLimits edit.now }
        requires room { tally.old.fits ≤ 2 ^ 63 + 2 ^ 32 }
        requires room_for_cuts { tally.old.cuts ≤ 2 ^ 63 + 2 ^ 32 }
        ensures edited { OnOk result (Edited self.old.study edit.now (Ok self.new.study)) }
        ensures fit { OnOk result (IsFit self.new.study self.new.values) }
        ensures refitted { IfOk result (λ touch. IsRefit self.old.study edit.now self.new.study touch.refitted) }
        ensures components { IfOk result (λ touch. HasComponentCount (problem_stated self.new.study) touch.components) }
        ensures few { IfOk result (λ touch. touch.refitted ≤ 2) }
        ensures counted { IfOk result (λ touch. tally.new.fits ≡ tally.old.fits + touch.refitted) }
        ensures refused { IfErr result (λ fault. (fault ≡ Memory) ⊎ (IsRefusal self.old.study edit.now fault × (tally.new ≡ tally.old))) }
        ensures unchanged { OnErr result (self.new ≡ self.old) }
        ensures limited { OnErr result (CountsAtMost self.old.study edit.now tally.old tally.new) }
        ensures grown { tally.old.fits ≤ tally.new.fits }
        ensures grown_cuts { tally.old.cuts ≤ tally.new.cuts }
        ensures fewer_cuts { tally.new.cuts + tally.old.fits ≤ tally.old.cuts + tally.new.fits }
    {
        match self.study.row_change(edit)? {
            Some(change) => Ok(self.change_row(change, tally)?),
            None => Ok(self.edit_anew(edit, tally)?),
        }
    }

    /// Changes a row, and fits the component of its group anew. After want of memory the session is as
    /// before.
    fn change_row(&mut self, mut change: RowChange, tally: &mut Tally) -> Result<Touch, AllocError>
        requires change { IsChangeOf self.old.study change }
        requires room { tally.old.fits ≤ 2 ^ 63 + 2 ^ 32 }
        requires room_for_cuts { tally.old.cuts ≤ 2 ^ 63 + 2 ^ 32 }
        ensures changed { OnOk result (self.new.study ≡ changed self.old.study change) }
        ensures fit { OnOk result (IsFit self.new.study self.new.values) }
        ensures refitted { IfOk result (λ touch. (edit : Edit) → IsChangeFor self.old.study edit change → IsRefit self.old.study edit self.new.study touch.refitted) }
        ensures components { IfOk result (λ touch. HasComponentCount (problem_stated self.new.study) touch.components) }
        ensures one { IfOk result (λ touch. touch.refitted ≡ 1) }
        ensures counted { IfOk result (λ touch. tally.new.fits ≡ tally.old.fits + touch.refitted) }
        ensures unchanged { OnErr result (self.new ≡ self.old) }
        ensures limited { OnErr result ((edit : Edit) → IsAccepted self.old.study edit → IsChangeFor self.old.study edit change → CountsAtMost self.old.study edit tally.old tally.new) }
        ensures grown { tally.old.fits ≤ tally.new.fits }
        ensures grown_cuts { tally.old.cuts ≤ tally.new.cuts }
        ensures fewer_cuts { tally.new.cuts + tally.old.fits ≤ tally.old.cuts + tally.new.fits }
    {
        let alloc = *self.values.allocator();
        let components = self.order.component_count();
        let component = self.order.component_of(change.place());
        self.study.keeps_limits();
        self.study.exchange(&mut change);
        let picked = match fit_component(alloc, &self.study, &self.order, component, tally) {
            Ok(picked) => picked,
            Err(full) => {
                self.study.exchange(&mut change);
                return Err(full);
            }
        };
        let members = self.order.members(component);
        put_values(&mut self.values, members, picked.as_slice());
        Ok(Touch {
            refitted: 1,
            components,
        })
    }

    /// Edits the study in another way than by the change of a row, and fits the touched components anew.
    /// After want of memory the session is as before.
    fn edit_anew(&mut self, edit: &Edit, tally: &mut Tally) -> Result<Touch, AllocError>
        requires edit { IsEditInLimits edit.now }
        requires accepted { IsAccepted self.old.study edit.now }
        requires other { KeepsFirstRows self.old.study edit.now → ⊥ }
        requires room { tally.old.fits ≤ 2 ^ 63 + 2 ^ 32 }
        requires room_for_cuts { tally.old.cuts ≤ 2 ^ 63 + 2 ^ 32 }
        ensures edited { OnOk result (IsAfter self.old.study edit.now self.new.study) }
        ensures fit { OnOk result (IsFit self.new.study self.new.values) }
        ensures refitted { IfOk result (λ touch. IsRefit self.old.study edit.now self.new.study touch.refitted) }
        ensures components { IfOk result (λ touch. HasComponentCount (problem_stated self.new.study) touch.components) }
        ensures few { IfOk result (λ touch. touch.refitted ≤ 2) }
        ensures counted { IfOk result (λ touch. tally.new.fits ≡ tally.old.fits + touch.refitted) }
        ensures unchanged { OnErr result (self.new ≡ self.old) }
        ensures limited { OnErr result (CountsAtMost self.old.study edit.now tally.old tally.new) }
        ensures grown { tally.old.fits ≤ tally.new.fits }
        ensures grown_cuts { tally.old.cuts ≤ tally.new.cuts }
        ensures fewer_cuts { tally.new.cuts + tally.old.fits ≤ tally.old.cuts + tally.new.fits }
    {
        let alloc = *self.values.allocator();
        let study = self.study.edited_anew(edit)?;
        let (order, values, touch) = fit_after(
            alloc,
            &self.study,
            self.values.as_slice(),
            edit,
            &study,
            tally,
        )?;
        self.study = study;
        self.order = order;
        self.values = values;
        Ok(touch)
    }

    /// The report of the study and its values, which are in lowest terms.
    pub fn report(&self) -> Result<Vec<u8>, AllocError>
        ensures told { IfOk result (λ text. ReportText self.now.study self.now.values text.items) }
        ensures lowest { All IsLowest self.now.values }
    {
        let alloc = *self.values.allocator();
        tell_lowest(self.values.as_slice());
        write_report(alloc, &self.study, self.values.as_slice())
    }

    /// A sheet with the study's values and its size, that passes the checker.
    pub fn sheet(&self) -> Result<Sheet, AllocError>
        ensures fits { IfOk result (FitsCount (length (names_of self.now.study))) }
        ensures passes { IfOk result (λ x. Passes (meaning_of self.now.study.settings.loss) (problem_stated self.now.study) self.now.study.settings x) }
        ensures values { IfOk result (λ x. sheet_values x ≡ self.now.values) }
        ensures sized { IfOk result (λ x. IsSome x.size) }
    {
        let alloc = *self.values.allocator();
        certify(alloc, &self.study, self.values.as_slice())
    }
}
