// The header reader: it finds the samples, and then judges their length.
ghost use Rattle.std.specs.Prelude.{◌≡◌};
ghost use Rattle.wave.specs.Walk.{read_of, found_answer};

use crate::finder::find;
use crate::found::Found;
use crate::refusal::Refusal;
use wave_values::frame_size;

// Reads the header at the front of a file.
#[tactic(auto, unfolding(crate::specs::Walk::read_of, crate::specs::Walk::whole_frames))]
pub fn read(front: &[u8]) -> Result<Found, Refusal>
    ensures { found_answer result ≡ read_of front.now }
{
    let found = find(front)?;
    if found.size % frame_size(found.channels, found.format) != 0 {
        return Err(Refusal::PartFrame);
    }
    Ok(found)
}
