ghost use Rattle.std.specs.Prelude.{◌≡◌, ℕ, ℤ, Bool, List, Result};
ghost use Rattle.ofit_num.specs.DecimalText.{IsDecimal, IsUnits, IsFixed, UnitsRead};
ghost use Rattle.ofit_num.specs.declared.decimal.NumFault.{NumFault as TheFault};

/// A text is a decimal of one reading at most: it has one sign, one number, one count of digits behind
/// the point and one power of ten, and so it is one number of units. Under a limit it is read as one
/// number or one fault. A number of units is written as one text.
pub fn decimal_texts_are_canonical()
    ensures one_sign { (text : List ℕ) (s t : Bool) (m n f g : ℕ) (x y : ℤ) → IsDecimal text s m f x → IsDecimal text t n g y → s ≡ t }
    ensures one_reading { (text : List ℕ) (s t : Bool) (m n f g : ℕ) (x y : ℤ) → IsDecimal text s m f x → IsDecimal text t n g y → (m ≡ n) × (f ≡ g) × (x ≡ y) }
    ensures one_number { (text : List ℕ) (places : ℕ) (y z : ℤ) → IsUnits text places y → IsUnits text places z → y ≡ z }
    ensures one_answer { (text : List ℕ) (places limit : ℕ) (r t : Result ℤ TheFault) → UnitsRead text places limit r → UnitsRead text places limit t → r ≡ t }
    ensures one_text { (xs ys : List ℕ) (places : ℕ) (z : ℤ) → IsFixed xs z places → IsFixed ys z places → xs ≡ ys }
{}

/// A text that [`append_decimal`](crate::append_decimal) appends is a decimal of the same number of units,
/// which [`read_decimal`](crate::read_decimal) reads at the same places under each limit that it doesn't pass.
pub fn decimals_are_read_back()
    ensures { (text : List ℕ) (places : ℕ) (z : ℤ) → IsFixed text z places → IsUnits text places z }
{}
