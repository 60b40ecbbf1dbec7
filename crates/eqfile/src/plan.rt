// The plan of a run: what its turns go by, and what it comes to in all.
ghost use Rattle.std.specs.Prelude.{◌≡◌, ◌*◌, ◌<◌};
ghost use Rattle.chunks.specs.Walk.{padding};
ghost use Rattle.samples.specs.Channels.{count_of};
ghost use Rattle.wave_values.specs.Values.{frame_size};
ghost use Rattle.eqfile.specs.Turn.{fed_in_all, short_of};

use chunks::place::padding;
use samples::{Channels, Format};
use wave_values::frame_size;

// The delay of eight bands: frame n that is written is output n + LATE.
pub(crate) const LATE: usize = 1143;

// `frames` frames of a format in one or two channels, whose bytes begin at `start` of the front.
#[derive(Clone, Copy, Debug, PartialEq, Eq)]
pub struct Plan {
    pub rate: u32,
    pub format: Format,
    pub channels: Channels,
    pub frames: u32,
    pub start: usize,
}

impl Plan {
    // The bytes of one frame of the file.
    pub(crate) fn frame_bytes(self) -> usize
        ensures { (result ≡ frame_size (count_of self.channels) self.format) × (result < 9) }
    {
        frame_size(self.channels, self.format) as usize
    }

    // How many frames are fed in all.
    pub fn fed_in_all(self) -> usize
        ensures { result ≡ fed_in_all self.frames }
    {
        self.frames as usize + LATE
    }

    // How many bytes of data are missing after `read` bytes.
    pub fn short(self, read: usize) -> usize
        ensures { result ≡ short_of (frame_size (count_of self.channels) self.format) self.frames read }
    {
        (self.frame_bytes() * self.frames as usize).saturating_sub(read)
    }

    // How many bytes of padding follow the last sample that is written.
    pub fn pad_after(self) -> usize
        ensures { result ≡ padding (3 * (count_of self.channels * self.frames)) }
    {
        padding(3 * (self.channels.count() as usize * self.frames as usize))
    }
}
