use std::marker::Model;
use std::rt::Files;

/// A count of the components that were fitted, and of those that were fitted by cuts. Only code
/// that holds the runtime can make one, so a library counts on the tally that it was lent.
#[derive(Drop)]
pub struct Tally {
    fits: u64,
    cuts: u64,
}

impl Model for Tally {
    ghost use Rattle.ofit_num.specs.Tally.{Counts};

    ghost Value = { Counts };

    ghost view = { λ t. record { fits = t.fits; cuts = t.cuts } };
}

impl Tally {
    ghost use Rattle.std.specs.Prelude.{◌≡◌, ◌+◌, ◌-◌, ◌<◌, ◌^◌};

    /// A tally that starts at 0.
    pub fn new<R: Files>(_rt: &R) -> Tally
        ensures { result ≡ record { fits = 0; cuts = 0 } }
    {
        Tally { fits: 0, cuts: 0 }
    }

    /// How many components were fitted.
    pub fn fits(&self) -> u64
        ensures { result ≡ self.now.fits }
    {
        self.fits
    }

    /// How many components were fitted by cuts.
    pub fn cuts(&self) -> u64
        ensures { result ≡ self.now.cuts }
    {
        self.cuts
    }

    /// Counts a fit.
    pub fn note_fit(&mut self)
        requires { self.old.fits < 2 ^ 64 - 1 }
        ensures { self.new ≡ record self.old { fits = self.old.fits + 1 } }
    {
        self.fits += 1;
    }

    /// Counts a fit by cuts.
    pub fn note_cut(&mut self)
        requires { self.old.cuts < 2 ^ 64 - 1 }
        ensures { self.new ≡ record self.old { cuts = self.old.cuts + 1 } }
    {
        self.cuts += 1;
    }
}
