ghost use Rattle.std.specs.Prelude.{◌≡◌, ℕ, List, Result, Err};
ghost use Rattle.ofit_study.specs.declared.pattern.Pattern.{Pattern};
ghost use Rattle.ofit_study.specs.declared.settings.Settings.{Settings};
ghost use Rattle.ofit_study.specs.Study.{Study};
ghost use Rattle.ofit_table.specs.declared.fault.DataFault.{DataFault};
ghost use Rattle.ofit_table.specs.declared.fault.DataFault.TheVariants as table;
ghost use Rattle.ofit_table.specs.declared.fault.OrderFault.{OrderFault};
ghost use Rattle.ofit_table.specs.declared.fault.OrderFault.TheVariants as order;
ghost use Rattle.ofit_table.specs.DataRead.{DataRead};
ghost use Rattle.ofit_table.specs.PairsRead.{PairsRead};
ghost use Rattle.ofit_table.specs.PatternRead.{PatternRead};

/// The bytes of a data table are read in one way: as one study, or with one first fault. Want of
/// memory alone may come in its place.
pub fn tables_are_read_in_one_way()
    ensures { (bytes : List ℕ) (settings : Settings) (a b : Result Study DataFault)
        → DataRead bytes settings a → DataRead bytes settings b
        → (a ≡ Err table.Memory → ⊥) → (b ≡ Err table.Memory → ⊥) → a ≡ b }
{}

/// The bytes of an order file are read in one way: as one study with the file's pairs, or with one
/// first fault. Want of memory alone may come in its place.
pub fn orders_are_read_in_one_way()
    ensures { (bytes : List ℕ) (study : Study) (a b : Result Study OrderFault)
        → PairsRead bytes study a → PairsRead bytes study b
        → (a ≡ Err order.Memory → ⊥) → (b ≡ Err order.Memory → ⊥) → a ≡ b }
{}

/// A pattern is read in one way: as one study with its pairs, or with the fault that its group is none
/// of the study. Want of memory alone may come in its place.
pub fn patterns_are_read_in_one_way()
    ensures { (pattern : Pattern) (study : Study) (a b : Result Study OrderFault)
        → PatternRead pattern study a → PatternRead pattern study b
        → (a ≡ Err order.Memory → ⊥) → (b ≡ Err order.Memory → ⊥) → a ≡ b }
{}
