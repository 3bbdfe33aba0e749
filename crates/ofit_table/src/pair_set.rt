use indexmap::IndexSet;
use std::alloc::{AllocError, Global};
use std::marker::Model;

/// Pairs of places, each once, in the order in which they came first.
pub(crate) struct PairSet {
    set: IndexSet<(u32, u32)>,
}

/// Written out, so that a proof meets one call where a value is let go.
impl Drop for PairSet {
    fn drop(self) {
        let PairSet { set } = self;
        drop(set);
    }
}

impl Model for PairSet {
    ghost use Rattle.std.specs.Prelude.{ℕ, List};

    ghost Value = { List (ℕ × ℕ) };

    ghost view = { λ p. p.set.keys };
}

impl PairSet {
    ghost use Rattle.std.specs.Prelude.{◌≡◌, ◌≢◌, ◌++◌, ◌∷◌, [], All, Contains, MatchBool, OnOk, length};

    /// No pairs.
    pub(crate) fn new(alloc: Global) -> PairSet
        ensures { result ≡ [] }
    {
        PairSet {
            set: IndexSet::new(alloc),
        }
    }

    /// How many pairs there are.
    pub(crate) fn len(&self) -> usize
        ensures { result ≡ length self.now }
    {
        self.set.len()
    }

    /// Whether the pair is there, in expected constant time.
    pub(crate) fn has(&self, pair: (u32, u32)) -> bool
        ensures { MatchBool result (Contains self.now pair) (All (λ known. known ≢ pair) self.now) }
    {
        self.set.contains(&pair)
    }

    /// Puts a new pair after the others.
    pub(crate) fn add(&mut self, pair: (u32, u32)) -> Result<(), AllocError>
        requires { All (λ known. known ≢ pair) self.old }
        ensures { OnOk result (self.new ≡ self.old ++ pair ∷ []) }
    {
        self.set.insert(pair)?;
        Ok(())
    }

    /// The pairs.
    pub(crate) fn as_slice(&self) -> &[(u32, u32)]
        ensures { result.now ≡ self.now }
    {
        self.set.as_slice()
    }
}
