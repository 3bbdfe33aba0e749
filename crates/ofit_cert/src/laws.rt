ghost use Rattle.std.specs.Prelude.{ℕ, Bool, List, All};
ghost use Rattle.ofit_num.specs.Fraction.{Fraction};
ghost use Rattle.ofit_num.specs.Fit.{BestValues};
ghost use Rattle.ofit_cut.specs.declared.span.Span.{Span};
ghost use Rattle.ofit_cut.specs.Barrier.{IsAbove, IsBelow};
ghost use Rattle.ofit_sheet.specs.Kept.{IsFractionInLimits};
ghost use Rattle.ofit_study.specs.Study.{Study, IsValid, places_of, problem_stated, meaning_of};
ghost use Rattle.ofit_cert.specs.Tight.{tight_among};
ghost use Rattle.ofit_cert.specs.OpenSpans.{AreOpenSpans};

/// Nothing bars the flows of best values: along the pairs of equal values, within the groups' spans, no
/// upper set asks for more than can leave it, and no lower set for less.
pub fn best_values_are_not_barred()
    ensures above { (s : Study) (fs : List Fraction) (spans : List Span) → IsValid s → All IsFractionInLimits fs
        → AreOpenSpans (meaning_of s.settings.loss) (problem_stated s) fs spans → BestValues (meaning_of s.settings.loss) (problem_stated s) fs
        → (set : ℕ → Bool) → IsAbove (tight_among fs (places_of s)) spans set → ⊥ }
    ensures below { (s : Study) (fs : List Fraction) (spans : List Span) → IsValid s → All IsFractionInLimits fs
        → AreOpenSpans (meaning_of s.settings.loss) (problem_stated s) fs spans → BestValues (meaning_of s.settings.loss) (problem_stated s) fs
        → (set : ℕ → Bool) → IsBelow (tight_among fs (places_of s)) spans set → ⊥ }
{}
