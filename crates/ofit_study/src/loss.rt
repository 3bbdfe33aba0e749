ghost use Rattle.std.specs.Prelude.{◌≡◌, MatchOption};
ghost use Rattle.ofit_study.specs.declared.loss.LossKind.{LossKind as TheLoss};
ghost use Rattle.ofit_study.specs.Loss.{IsListedLoss, loss_text};

/// The loss that a fit makes least.
#[derive(Clone, Copy, Debug, PartialEq, Eq)]
pub enum LossKind {
    /// Weighted squares: the fit of weighted means.
    Squares,
    /// Weighted absolute differences: the fit of weighted medians.
    Median,
}

impl LossKind {
    /// What words, sheets and reports call the loss.
    pub fn name(self) -> &'static [u8]
        ensures { result.now ≡ loss_text self }
    {
        match self {
            LossKind::Squares => b"squares",
            LossKind::Median => b"median",
        }
    }

    /// The loss of the table that has this name.
    pub fn named(text: &[u8]) -> Option<LossKind>
        ensures { MatchOption result ((loss : TheLoss) → IsListedLoss text.now loss → ⊥) (λ loss. IsListedLoss text.now loss) }
    {
        if text == LossKind::Squares.name() {
            return Some(LossKind::Squares);
        }
        if text == LossKind::Median.name() {
            return Some(LossKind::Median);
        }
        None
    }
}
