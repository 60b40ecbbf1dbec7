// The crossover call.
ghost use Rattle.std.specs.Prelude.{◌≡◌};
ghost use Rattle.answers.specs.Checks.{Done};
ghost use Rattle.crossover.specs.declared.cross.CrossError.TheVariants.{Memory, Input};
ghost use Rattle.crossover.specs.Answer.{cross_refusal};
ghost use Rattle.crossover.specs.Cross.{cross_of};
ghost use Rattle.std.proofs.Common.{rules};

use crate::both::feed_both;
use answers::range::first_outside;
use answers::refused::{Numbered, Refused};
use answers::unit::LARGEST_GAIN;
use octave::input::{InputError, judge_input};
use octave::memory::{Fault, judge};

// Why a crossover call was refused.
#[derive(Clone, Copy, Debug, PartialEq, Eq)]
pub enum CrossError {
    Memory(Fault),
    GainCount,
    Split,
    Gain,
    BassLength,
    HornLength,
    Input(InputError),
}

impl From<Fault> for CrossError {
    ghost from_gives = { λ fault r. r ≡ Memory fault };

    fn from(fault: Fault) -> CrossError {
        CrossError::Memory(fault)
    }
}

impl From<InputError> for CrossError {
    ghost from_gives = { λ error r. r ≡ Input error };

    fn from(error: InputError) -> CrossError {
        CrossError::Input(error)
    }
}

impl Numbered for CrossError {
    ghost refusal = { cross_refusal };

    fn refused(self) -> Refused {
        match self {
            CrossError::Memory(fault) => fault.refused(),
            CrossError::GainCount => Refused::plain(4),
            CrossError::Split => Refused::plain(10),
            CrossError::Gain => Refused::plain(5),
            CrossError::BassLength | CrossError::HornLength => Refused::plain(6),
            CrossError::Input(error) => error.refused(),
        }
    }

    ghost has_number = { Prim.search rules };
}

// Sends bands 1 to `split` to the bass feed and the others to the horn feed: frame i of either answers input frame i. All is judged before
// anything is written.
pub fn cross(
    memory: &mut [i32],
    gains: &[i32],
    split: i32,
    input: &[i32],
    bass: &mut [i32],
    horn: &mut [i32],
) -> Result<usize, CrossError>
    ensures { Done (cross_of memory.old gains.now split input.now bass.old horn.old) result (memory.new, bass.new, horn.new) }
{
    let counts = judge(memory)?;
    if gains.len() != counts.bands() {
        return Err(CrossError::GainCount);
    }
    // The split, 10, is judged between the gains' number and their range: no judge of gains is shared with the block call.
    let s = match usize::try_from(split) {
        Ok(s) if (1..gains.len()).contains(&s) => s,
        _ => return Err(CrossError::Split),
    };
    if first_outside(0, LARGEST_GAIN, gains).is_some() {
        return Err(CrossError::Gain);
    }
    if bass.len() != input.len() {
        return Err(CrossError::BassLength);
    }
    if horn.len() != input.len() {
        return Err(CrossError::HornLength);
    }
    let frames = judge_input(input, counts)?;
    feed_both(memory, gains, s, input, bass, horn, counts);
    Ok(frames)
}
