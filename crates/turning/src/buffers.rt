// How long the buffers of a run are.
ghost use Rattle.std.specs.Prelude.{◌≡◌, ◌*◌};
ghost use Rattle.answers.specs.Unit.{turn_room};
ghost use Rattle.samples.specs.Channels.{count_of};
ghost use Rattle.octave.specs.Memory.{memory_length};
ghost use Rattle.arguments.specs.Arguments.{bands};

use answers::unit::TURN_ROOM;
use arguments::BANDS;
use octave::memory::memory_length;
use samples::Channels;

// Four bytes for each sample of a block: as many as a format has at most.
pub const BYTES: usize = 4 * TURN_ROOM;
// All places of two channels' line memory, which serve any run. An array's length is a constant, so the number stands here; `places` holds it to
// `memory_length`.
pub const PLACES: usize = 16131;

// How many of them a file's channels take. And the buffers are as long as the rules have them.
pub fn places(channels: Channels) -> usize
    ensures value { result ≡ memory_length bands (count_of channels) }
    ensures lengths { (TURN_ROOM ≡ turn_room) × (BYTES ≡ 4 * turn_room) × (PLACES ≡ memory_length bands 2) }
{
    // eight bands, and one channel or two, are allowed
    memory_length(BANDS as i32, channels.count() as i32).unwrap()
}
