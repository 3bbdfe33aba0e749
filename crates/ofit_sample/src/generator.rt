ghost use Rattle.std.specs.Prelude.{◌≡◌, ◌≤◌, ◌%◌};
ghost use Rattle.ofit_sample.specs.Generator.{next_number, number_after};

/// A linear congruential generator: a number below the prime 65,537, of which each draw makes the next one
/// as 75 times itself and 74, modulo that prime.
#[derive(Drop)]
pub(crate) struct Generator {
    /// The number.
    pub(crate) number: u32,
    ghost small: { number ≤ 65536 },
}

impl Generator {
    /// The generator of a seed, before its first draw.
    pub(crate) fn new(seed: u32) -> Generator
        ensures { result.number ≡ number_after seed 0 }
    {
        Generator {
            number: seed % 65_536,
        }
    }

    /// Draws a number below m.
    pub(crate) fn draw(&mut self, m: u32) -> u32
        requires { 1 ≤ m }
        ensures next { self.new.number ≡ next_number self.old.number }
        ensures drawn { result ≡ self.new.number % m }
    {
        self.number = (75 * self.number + 74) % 65_537;
        self.number % m
    }
}
