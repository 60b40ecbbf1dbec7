// The input of a call: whole frames, not too many, each sample in the range. Every call that takes samples judges it so.
ghost use Rattle.std.specs.Prelude.{◌≡◌};
ghost use Rattle.octave.specs.Input.{input_of};

use crate::counts::Counts;
use answers::range::first_outside;
use answers::unit::{BLOCK_LIMIT, LEAST_SAMPLE, MOST_SAMPLE};
use frames::count::{frames_in, whole_frames};

// What is wrong with an input; a sample by its place in it.
#[derive(Clone, Copy, Debug, PartialEq, Eq)]
pub enum InputError {
    PartFrame,
    TooLong,
    Sample(usize),
}

// How many frames the input has, for a memory of these counts.
pub fn judge_input(input: &[i32], counts: Counts) -> Result<usize, InputError>
    ensures { result ≡ input_of counts.channels input.now }
{
    let channels = counts.channels;
    if !whole_frames(input.len(), channels) {
        return Err(InputError::PartFrame);
    }
    let frames = frames_in(input.len(), channels);
    if BLOCK_LIMIT < frames {
        return Err(InputError::TooLong);
    }
    if let Some(place) = first_outside(LEAST_SAMPLE, MOST_SAMPLE, input) {
        return Err(InputError::Sample(place));
    }
    Ok(frames)
}
