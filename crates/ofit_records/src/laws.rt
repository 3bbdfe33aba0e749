ghost use Rattle.std.specs.Prelude.{◌≡◌, ◌≢◌, ◌∷◌, [], ℕ, List, All};
ghost use Rattle.ofit_records.specs.Records.{records_of, without_marks};
ghost use Rattle.ofit_records.specs.Written.{records_text};

/// Records that were written are read back, whatever their bytes, where each has a field and no byte order
/// mark stands at the front of the whole text. A text has none that doesn't begin with its first byte.
pub fn written_records_are_read_back()
    ensures read_back { (rows : List (List (List ℕ))) → All (λ fields. fields ≢ []) rows → without_marks (records_text rows) ≡ records_text rows
        → records_of (records_text rows) ≡ rows }
    ensures unmarked { (first : ℕ) (rest : List ℕ) → first ≢ 0xEF → without_marks (first ∷ rest) ≡ first ∷ rest }
{}
