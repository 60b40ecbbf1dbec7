// The sample formats that a file may hold.
ghost use Rattle.std.specs.Prelude.{◌≡◌, ◌<◌};
ghost use Rattle.samples.specs.Format.{bits_of, size_of};

#[derive(Clone, Copy, Debug, PartialEq, Eq)]
pub enum Format {
    Bits16,
    Bits24,
    Float32,
}

impl Format {
    // The bits of one sample.
    pub fn bits(self) -> u32
        ensures { result ≡ bits_of self }
    {
        match self {
            Format::Bits16 => 16,
            Format::Bits24 => 24,
            Format::Float32 => 32,
        }
    }

    // The bytes of one sample.
    pub fn bytes(self) -> u32
        ensures { (result ≡ size_of self) × (0 < result) × (result < 5) }
    {
        self.bits() / 8
    }
}
