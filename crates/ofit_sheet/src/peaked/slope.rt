ghost use Rattle.std.specs.Prelude.{◌≡◌, ◌<◌, ◌-◌, ◌^◌};
ghost use Rattle.ofit_sheet.specs.PeakedText.{slope_name, side_number, side_start};
ghost use Rattle.ofit_sheet.specs.Slots.{steps_before_last};

/// Which way a side goes.
#[derive(Clone, Copy)]
pub(crate) enum Slope {
    /// Each group of the side is at most the next one: the first groups.
    Rise,
    /// Each group of the side is at least the next one: the last groups.
    Fall,
}

impl Slope {
    /// The name of a side in a sheet.
    pub(crate) fn name(self) -> &'static [u8]
        ensures { result.now ≡ slope_name self }
    {
        match self {
            Slope::Rise => b"rise",
            Slope::Fall => b"fall",
        }
    }

    /// The number by which the side of this index is called.
    pub(crate) fn number(self, index: u32) -> u32
        requires { index < 2 ^ 32 - 1 }
        ensures { result ≡ side_number self index }
    {
        match self {
            Slope::Rise => index + 1,
            Slope::Fall => index,
        }
    }

    /// The place of the first group of the side of this index.
    pub(crate) fn start(self, index: u32) -> u32
        ensures { result ≡ side_start self index }
    {
        match self {
            Slope::Rise => 0,
            Slope::Fall => index,
        }
    }

    /// How many steps the side of this index has before its last one, among so many groups.
    pub(crate) fn steps_before_last(self, groups: u32, index: u32) -> u32
        requires { index < groups }
        ensures { result ≡ steps_before_last self groups index }
    {
        match self {
            Slope::Rise => index,
            Slope::Fall => groups - index - 1,
        }
    }
}
