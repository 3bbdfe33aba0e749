ghost use Rattle.std.specs.Prelude.{◌≡◌, ℕ, List, All};
ghost use Rattle.ofit_num.specs.Fraction.{Fraction, IsLowest};
ghost use Rattle.ofit_study.specs.Study.{Study};
ghost use Rattle.ofit_report.specs.ReportOf.{IsReportOf};
ghost use Rattle.ofit_report.specs.ReportText.{ReportText};

/// A study with values in lowest terms has one report: what is printed is a function of both. The report of a
/// study with its least best values is one text too, since in lowest terms there is one list of these.
pub fn reports_are_told_in_one_way()
    ensures values { (s : Study) (values : List Fraction) (a b : List ℕ) → All IsLowest values → ReportText s values a → ReportText s values b → a ≡ b }
    ensures study { (s : Study) (a b : List ℕ) → IsReportOf s a → IsReportOf s b → a ≡ b }
{}
