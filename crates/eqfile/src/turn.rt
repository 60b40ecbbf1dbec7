// The turns of a run: the frames of the file and as many zeros after them as the delay go through the equaliser in blocks of 256.
ghost use Rattle.std.specs.Prelude.{◌≡◌};
ghost use Rattle.samples.specs.Channels.{count_of};
ghost use Rattle.wave_values.specs.Values.{frame_size};
ghost use Rattle.eqfile.specs.Turn.{all_read, wanted_of, turn_of};

use crate::place::Place;
use crate::plan::{LATE, Plan};
use answers::unit::TURN_LIMIT;

// A turn of the run, one block: how many frames are fed, how many bytes are to be read for them, how many of their outputs are dropped, and how many bytes
// the others make.
#[derive(Clone, Copy)]
pub struct Turn {
    pub fed: usize,
    pub wanted: usize,
    pub skipped: usize,
    pub written: usize,
}

impl Plan {
    // Whether all bytes of the frames before the place were read.
    fn all_read(self, place: Place) -> bool
        ensures { result ≡ all_read (frame_size (count_of self.channels) self.format) self.frames place.at place.read }
    {
        place.read == self.frame_bytes() * place.at.min(self.frames as usize)
    }

    // The bytes to read for the block at a place: none once the data has ended.
    #[tactic(auto, unfolding(crate::specs::Turn::wanted_of))]
    fn wanted(self, place: Place, fed: usize) -> usize
        ensures { result ≡ wanted_of (frame_size (count_of self.channels) self.format) self.frames place.at place.read fed }
    {
        if !self.all_read(place) {
            return 0;
        }
        self.frame_bytes() * fed.min((self.frames as usize).saturating_sub(place.at))
    }

    // The next turn of a run that stands at a place.
    #[tactic(auto, unfolding(crate::specs::Turn::turn_of))]
    pub fn next_turn(self, place: Place) -> Turn
        ensures { result ≡ turn_of (count_of self.channels) (frame_size (count_of self.channels) self.format) self.frames place.at place.read }
    {
        let count = self.channels.count() as usize;
        let fed = TURN_LIMIT.min(self.fed_in_all().saturating_sub(place.at));
        let skipped = fed.min(LATE.saturating_sub(place.at));
        Turn {
            fed,
            wanted: self.wanted(place, fed),
            skipped,
            written: 3 * (count * (fed - skipped)),
        }
    }
}
