//! A count of phases.

ghost use Rattle.std.specs.Prelude.{◌≡◌};

/// How many phases the maximum flows have taken: how often levels were built.
#[derive(Clone, Copy, PartialEq, Eq, Debug, Default)]
pub struct Phases {
    pub count: u64,
}

impl Phases {
    /// No phase yet.
    pub fn new() -> Phases
        ensures { result.count ≡ 0 }
    {
        Phases { count: 0 }
    }
}
