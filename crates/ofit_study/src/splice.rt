use crate::study::Study;
use ofit_num::Row;
use std::alloc::{AllocError, Global};

impl Study {
    ghost use Rattle.std.specs.Prelude.{◌≡◌, ◌≤◌, ◌<◌, ◌+◌, [], ◌∷◌, ◌++◌, length, map, take, drop, All, Contains, IfOk, OnOk, OnErr};
    ghost use Rattle.ofit_study.specs.Added.{observation};
    ghost use Rattle.ofit_study.specs.Kept.{name_at, named};
    ghost use Rattle.ofit_study.specs.Splice.{rows_between};
    ghost use Rattle.ofit_study.specs.Study.{IsValid, names_of};

    /// Puts the rows of another study from the index `start` on, up to `end`, after the others, each in
    /// the group of the same name.
    fn push_rows(&mut self, from: &Study, start: usize, end: usize) -> Result<(), AllocError>
        requires ordered { start ≤ end }
        requires inside { end ≤ length from.now.rows }
        requires bare { self.old.pairs ≡ [] }
        requires valid { IsValid (record self.old { rows = self.old.rows ++ rows_between from.now.rows start end }) }
        ensures { OnOk result (self.new ≡ record self.old { rows = self.old.rows ++ rows_between from.now.rows start end }) }
    {
        for index in start..end {
            let (name, row) = from.row_at(index);
            self.push(name, row)?;
        }
        Ok(())
    }

    /// The place that a group of another study has by its name.
    fn place_as(&self, of: &Study, place: u32) -> u32
        requires place { place < length (names_of of.now) }
        requires known { Contains (names_of self.now) (name_at (names_of of.now) place) }
        ensures inside { result < length (names_of self.now) }
        ensures same { name_at (names_of self.now) result ≡ name_at (names_of of.now) place }
    {
        match self.place_of(of.group_name(place)) {
            Some(own) => own,
            None => unreachable!(),
        }
    }

    /// The pairs of another study by the places that their names have here.
    fn pairs_as(&self, of: &Study) -> Result<Vec<(u32, u32)>, AllocError>
        requires { All (λ e. Contains (names_of self.now) e.0 × Contains (names_of self.now) e.1) of.now.pairs }
        ensures named { IfOk result (λ pairs. map (named (names_of self.now)) pairs.items ≡ of.now.pairs) }
        ensures within { IfOk result (λ pairs. All (λ e. (e.0 < length (names_of self.now)) × (e.1 < length (names_of self.now))) pairs.items) }
    {
        of.keeps_limits();
        let mut pairs = Vec::new(self.allocator());
        for index in 0..of.pair_count() {
            let (low, high) = of.pair_at(index);
            pairs.push((self.place_as(of, low), self.place_as(of, high)))?;
        }
        Ok(pairs)
    }

    /// Takes the pairs of another study.
    fn take_pairs(&mut self, of: &Study) -> Result<(), AllocError>
        requires { All (λ e. Contains (names_of self.old) e.0 × Contains (names_of self.old) e.1) of.now.pairs }
        ensures { OnOk result (self.new ≡ record self.old { pairs = of.now.pairs }) }
    {
        of.keeps_limits();
        let pairs = self.pairs_as(of)?;
        self.set_pairs(pairs)
    }

    /// Takes the rows of another study, with this row in place of those from the index `start` on, up to
    /// `end`, and its pairs.
    fn take_with_row_at(
        &mut self,
        of: &Study,
        start: usize,
        end: usize,
        name: &[u8],
        row: Row,
    ) -> Result<(), AllocError>
        requires emptied { self.old ≡ record of.now { rows = []; pairs = [] } }
        requires ordered { start ≤ end }
        requires inside { end ≤ length of.now.rows }
        requires valid { IsValid (record of.now { rows = take start of.now.rows ++ observation name.now row ∷ drop end of.now.rows }) }
        ensures { OnOk result (self.new ≡ record of.now { rows = take start of.now.rows ++ observation name.now row ∷ drop end of.now.rows }) }
    {
        self.push_rows(of, 0, start)?;
        self.push(name, row)?;
        self.push_rows(of, end, of.row_count() as usize)?;
        self.take_pairs(of)
    }

    /// The study with this row in place of those from the index `start` on, up to `end`. Expected linear
    /// time.
    pub(crate) fn with_row_at(
        &self,
        start: usize,
        end: usize,
        name: &[u8],
        row: Row,
    ) -> Result<Study, AllocError>
        requires ordered { start ≤ end }
        requires inside { end ≤ length self.now.rows }
        requires valid { IsValid (record self.now { rows = take start self.now.rows ++ observation name.now row ∷ drop end self.now.rows }) }
        ensures { IfOk result (λ study. study ≡ record self.now { rows = take start self.now.rows ++ observation name.now row ∷ drop end self.now.rows }) }
    {
        let mut study = self.emptied();
        study.take_with_row_at(self, start, end, name, row)?;
        Ok(study)
    }

    /// Takes the rows of another study but the one at an index, and its pairs.
    fn take_without_row(&mut self, of: &Study, index: usize) -> Result<(), AllocError>
        requires emptied { self.old ≡ record of.now { rows = []; pairs = [] } }
        requires inside { index < length of.now.rows }
        requires valid { IsValid (record of.now { rows = take index of.now.rows ++ drop (index + 1) of.now.rows }) }
        ensures { OnOk result (self.new ≡ record of.now { rows = take index of.now.rows ++ drop (index + 1) of.now.rows }) }
    {
        self.push_rows(of, 0, index)?;
        self.push_rows(of, index + 1, of.row_count() as usize)?;
        self.take_pairs(of)
    }

    /// The study without the row at an index. Expected linear time.
    pub(crate) fn without_row(&self, index: usize) -> Result<Study, AllocError>
        requires inside { index < length self.now.rows }
        requires valid { IsValid (record self.now { rows = take index self.now.rows ++ drop (index + 1) self.now.rows }) }
        ensures { IfOk result (λ study. study ≡ record self.now { rows = take index self.now.rows ++ drop (index + 1) self.now.rows }) }
    {
        let mut study = self.emptied();
        study.take_without_row(self, index)?;
        Ok(study)
    }

    /// Puts a row among the others, before the one at an index. Expected linear time.
    pub(crate) fn insert(&mut self, index: usize, name: &[u8], row: Row) -> Result<(), AllocError>
        requires inside { index ≤ length self.old.rows }
        requires valid { IsValid (record self.old { rows = take index self.old.rows ++ observation name.now row ∷ drop index self.old.rows }) }
        ensures ok { OnOk result (self.new ≡ record self.old { rows = take index self.old.rows ++ observation name.now row ∷ drop index self.old.rows }) }
        ensures err { OnErr result (self.new ≡ self.old) }
    {
        let study = self.with_row_at(index, index, name, row)?;
        *self = study;
        Ok(())
    }
}
