ghost use Rattle.std.specs.Prelude.{◌≡◌, ◌⊎◌, ◌<◌, ◌^◌, ℕ, ℤ, List, All, decimal, unsigned_abs};
ghost use Rattle.std.specs.Fmt.{signed_decimal};
ghost use Rattle.ofit_num.specs.NumberText.{IsWhole, IsSigned};
ghost use Rattle.ofit_num.specs.Problem.{Problem};
ghost use Rattle.ofit_num.specs.Meaning.{Meaning};
ghost use Rattle.ofit_num.specs.Fraction.{Fraction, IsLowest};
ghost use Rattle.ofit_num.specs.Trial.{Trial};
ghost use Rattle.ofit_num.specs.Fit.{Best, LeastBest, LeastBestValues};
ghost use Rattle.ofit_num.specs.Settled.{IsSettled, IsLeastSettled};
ghost use Rattle.ofit_num.specs.Loss.{Factors, table_loss, squares, median};

/// The text that [`append_whole`](crate::append_whole) appends is the canonical one of its number,
/// no other text is, and no text is that of two numbers.
pub fn whole_texts_are_canonical()
    ensures canonical { (n : ℕ) → n < 10 ^ 64 → IsWhole (decimal n) n }
    ensures one_text { (xs ys : List ℕ) (n : ℕ) → IsWhole xs n → IsWhole ys n → xs ≡ ys }
    ensures one_number { (text : List ℕ) (m n : ℕ) → IsWhole text m → IsWhole text n → m ≡ n }
{}

/// The same of numbers with a sign and [`append_signed`](crate::append_signed).
pub fn signed_texts_are_canonical()
    ensures canonical { (z : ℤ) → unsigned_abs z < 10 ^ 64 → IsSigned (signed_decimal z) z }
    ensures one_text { (xs ys : List ℕ) (z : ℤ) → IsSigned xs z → IsSigned ys z → xs ≡ ys }
    ensures one_number { (text : List ℕ) (y z : ℤ) → IsSigned text y → IsSigned text z → y ≡ z }
{}

/// A problem has at most one list of least best values in lowest terms: what is printed of a fit is a
/// function of the problem.
pub fn least_best_values_are_unique()
    ensures { (m : Meaning) (s : Problem) (fs hs : List Fraction) → All IsLowest fs → All IsLowest hs
        → LeastBestValues m s fs → LeastBestValues m s hs → fs ≡ hs }
{}

/// What is best is settled: where a trial costs least, no set of its places that can rise together
/// gains by rising, and none that can fall together gains by falling. Under absolute residuals the
/// least of the best loses by lowering any set. Both hold of each loss of the table, over any rows,
/// order and bounds.
pub fn best_is_settled()
    ensures absolute { (f : Factors) (s : Problem) (t : Trial) → Best (table_loss 1 f) s t → IsSettled (table_loss 1 f) s t }
    ensures least { (f : Factors) (s : Problem) (t : Trial) → LeastBest (table_loss 1 f) s t → IsLeastSettled (table_loss 1 f) s t }
    ensures squared { (f : Factors) (s : Problem) (t : Trial) → Best (table_loss 2 f) s t → IsSettled (table_loss 2 f) s t }
    ensures either { (m : Meaning) → (m ≡ squares) ⊎ (m ≡ median) → (s : Problem) (t : Trial) → Best m s t → IsSettled m s t }
{}
