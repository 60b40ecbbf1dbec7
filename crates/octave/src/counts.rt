// The counts of bands and channels that a memory is for, and the lengths that follow from them.
ghost use Rattle.std.specs.Prelude.{◌≡◌};
ghost use Rattle.octave.specs.Memory.{line_length, side_places, memory_length, counts_of};

use crate::layout::HEAD;
use crate::memory::CountError;
use answers::range::within;
use answers::unit::{FEWEST_BANDS, FEWEST_CHANNELS, MOST_BANDS, MOST_CHANNELS};
use std::marker::Model;

// Counts of which each is allowed.
#[derive(Clone, Copy, Debug, PartialEq, Eq)]
pub struct Counts {
    pub(crate) bands: usize,
    pub(crate) channels: usize,
}

impl Model for Counts {
    ghost use Rattle.octave.specs.Counts.{AllowedCounts};
    ghost use Rattle.octave.specs.Counts as count;

    ghost Value = { count.Counts };

    ghost view = { λ k. record { bands = k.bands; channels = k.channels } };

    ghost invariant = { λ k. AllowedCounts k.bands k.channels };

    ghost inverse = { λ k. record { bands = k.bands; channels = k.channels } };
}

impl Counts {
    // The band count is judged first.
    pub fn allowed(bands: i32, channels: i32) -> Result<Counts, CountError>
        ensures { result ≡ counts_of bands channels }
    {
        if !within(FEWEST_BANDS, MOST_BANDS, bands) {
            return Err(CountError::BandCount);
        }
        if !within(FEWEST_CHANNELS, MOST_CHANNELS, channels) {
            return Err(CountError::ChannelCount);
        }
        Ok(Counts {
            bands: bands as usize,
            channels: channels as usize,
        })
    }

    pub fn bands(self) -> usize
        ensures { result ≡ self.bands }
    {
        self.bands
    }

    pub fn channels(self) -> usize
        ensures { result ≡ self.channels }
    {
        self.channels
    }

    // The places of each line, 9·2^(bands-1).
    pub fn line_length(self) -> usize
        ensures { result ≡ line_length self.bands }
    {
        9 << (self.bands - 1)
    }

    // The places of one side.
    pub fn side_places(self) -> usize
        ensures { result ≡ side_places self.bands }
    {
        (self.bands - 1) * self.line_length()
    }

    // The places of the whole memory.
    pub fn memory_length(self) -> usize
        ensures { result ≡ memory_length self.bands self.channels }
    {
        HEAD + self.channels * self.side_places()
    }
}
