// The channels of a file: one or two.
ghost use Rattle.std.specs.Prelude.{◌≡◌, ◌<◌};
ghost use Rattle.samples.specs.Channels.{count_of};

#[derive(Clone, Copy, Debug, PartialEq, Eq)]
pub enum Channels {
    One,
    Two,
}

impl Channels {
    // Their number.
    pub fn count(self) -> u32
        ensures { (result ≡ count_of self) × (0 < result) × (result < 3) }
    {
        match self {
            Channels::One => 1,
            Channels::Two => 2,
        }
    }
}
