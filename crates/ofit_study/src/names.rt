use indexmap::IndexSet;
use std::alloc::{AllocError, Global};
use std::cmp::Ordering;
use std::marker::Model;

/// The names of groups, each at its place. A name is found by its bytes in expected constant time.
pub(crate) struct Names {
    set: IndexSet<Vec<u8>>,
}

/// Written out, so that a proof meets one call where a value is let go.
impl Drop for Names {
    fn drop(self) {
        let Names { set } = self;
        drop(set);
    }
}

impl Model for Names {
    ghost use Rattle.std.specs.Prelude.{map, ◌<◌, ◌^◌, length};
    ghost use Rattle.ofit_study.specs.Texts.{Texts};

    ghost Value = { Texts };

    ghost view = { λ n. map (λ name. name.items) n.set.keys };

    ghost invariant = { λ n. length n.set.keys < 2 ^ 32 };
}

impl Names {
    ghost use Rattle.std.specs.Prelude.{◌≡◌, ◌≢◌, ◌+◌, ◌-◌, ◌<◌, ◌^◌, [], ◌∷◌, ◌++◌, length, All, IfOk, OnOk, OnErr, IsTrue, MatchOption, slice_get, Some};
    ghost use Rattle.ofit_study.specs.Kept.{name_at};
    ghost use Rattle.ofit_study.specs.PairOrder.{pair_order, text_order};
    ghost use Rattle.std.specs.Ordering.{nat_cmp, ordering_then};

    /// No names. It takes no memory.
    pub(crate) fn new(alloc: Global) -> Names
        ensures { result ≡ [] }
    {
        Names {
            set: IndexSet::new(alloc),
        }
    }

    /// How many names there are.
    pub(crate) fn count(&self) -> u32
        ensures { result ≡ length self.now }
    {
        self.set.len() as u32
    }

    /// The bytes of the name at a place.
    pub(crate) fn at(&self, place: u32) -> &[u8]
        requires { place < length self.now }
        ensures { slice_get self.now place ≡ Some result.now }
    {
        let names = self.set.as_slice();
        names[place as usize].as_slice()
    }

    /// The place of a name.
    pub(crate) fn place_of(&self, name: &[u8]) -> Option<u32>
        ensures { MatchOption result (All (λ known. known ≢ name.now) self.now)
            (λ place. slice_get self.now place ≡ Some name.now) }
    {
        match self.set.get_index_of(name) {
            Some(place) => Some(place as u32),
            None => None,
        }
    }

    /// Whether the name stands at the place. Last bytes are looked at first, since names that follow one
    /// another mostly differ there.
    fn is_at(&self, place: u32, name: &[u8]) -> bool
        ensures { IsTrue result → slice_get self.now place ≡ Some name.now }
    {
        if place >= self.count() {
            return false;
        }
        let known = self.at(place);
        known.last() == name.last() && known == name
    }

    /// The place of a name. It is found without hashing where it is the one behind the guess or the guess
    /// itself, as in a table whose rows go round the groups or stand group by group.
    pub(crate) fn place_near(&self, guess: u32, name: &[u8]) -> Option<u32>
        ensures { MatchOption result (All (λ known. known ≢ name.now) self.now)
            (λ place. slice_get self.now place ≡ Some name.now) }
    {
        let next = guess.saturating_add(1);
        if self.is_at(next, name) {
            return Some(next);
        }
        if self.is_at(guess, name) {
            return Some(guess);
        }
        self.place_of(name)
    }

    /// Puts a new name after the others.
    pub(crate) fn add(&mut self, name: &[u8]) -> Result<(), AllocError>
        requires new { All (λ known. known ≢ name.now) self.old }
        requires room { length self.old < 2 ^ 32 - 1 }
        ensures ok { OnOk result (self.new ≡ self.old ++ name.now ∷ []) }
        ensures err { OnErr result (self.new ≡ self.old) }
    {
        let alloc = *self.set.allocator();
        let text = Vec::from_slice(alloc, name)?;
        self.set.insert(text)?;
        Ok(())
    }

    /// The bytes of the name at a place; none where there is no name.
    fn text(&self, place: u32) -> &[u8]
        ensures { result.now ≡ name_at self.now place }
    {
        match self.set.get_index(place as usize) {
            Some(name) => name.as_slice(),
            None => &[],
        }
    }

    /// The order of two pairs of places, by the bytes of the low name, then of the high name. Places
    /// settle what names leave open, so equal pairs alone are tied.
    pub(crate) fn compare_pairs(&self, first: (u32, u32), second: (u32, u32)) -> Ordering
        ensures { result ≡ pair_order self.now first second }
    {
        match self.text(first.0).cmp(self.text(second.0)) {
            Ordering::Less => Ordering::Less,
            Ordering::Greater => Ordering::Greater,
            Ordering::Equal => self.compare_highs(first, second),
        }
    }

    /// The order of two pairs whose low names are equal.
    fn compare_highs(&self, first: (u32, u32), second: (u32, u32)) -> Ordering
        ensures { result ≡ ordering_then (text_order (name_at self.now first.1) (name_at self.now second.1)) (ordering_then (nat_cmp first.0 second.0) (nat_cmp first.1 second.1)) }
    {
        let by_high = self.text(first.1).cmp(self.text(second.1));
        by_high.then(first.0.cmp(&second.0).then(first.1.cmp(&second.1)))
    }

    /// The names once more.
    pub(crate) fn copy(&self) -> Result<Names, AllocError>
        ensures { IfOk result (λ names. names ≡ self.now) }
    {
        let set = self.set.clone()?;
        Ok(Names { set })
    }
}
