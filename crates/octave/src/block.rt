// The block call.
ghost use Rattle.std.specs.Prelude.{◌≡◌};
ghost use Rattle.answers.specs.Checks.{Done};
ghost use Rattle.octave.specs.declared.block.BlockError.TheVariants.{Memory, Input};
ghost use Rattle.octave.specs.Block.{equalised, block_of};
ghost use Rattle.octave.specs.Helpers.{Judged};

use crate::counts::Counts;
use crate::input::{InputError, judge_input};
use crate::memory::{Fault, judge};
use crate::pass::pass;
use answers::range::first_outside;
use answers::unit::LARGEST_GAIN;

// Why a block was refused.
#[derive(Clone, Copy, Debug, PartialEq, Eq)]
pub enum BlockError {
    Memory(Fault),
    GainCount,
    Gain,
    OutputLength,
    Input(InputError),
}

impl From<Fault> for BlockError {
    ghost from_gives = { λ fault r. r ≡ Memory fault };

    fn from(fault: Fault) -> BlockError {
        BlockError::Memory(fault)
    }
}

impl From<InputError> for BlockError {
    ghost from_gives = { λ error r. r ≡ Input error };

    fn from(error: InputError) -> BlockError {
        BlockError::Input(error)
    }
}

// The samples through the lines, weighed once: the empty slices ask for no second weighing, as `pass` says. Everything has been judged.
fn equalise(memory: &mut [i32], gains: &[i32], input: &[i32], output: &mut [i32], counts: Counts)
    requires { Judged counts memory.old gains.now input.now output.old }
    ensures { (memory.new, output.new) ≡ equalised memory.old gains.now input.now }
{
    pass(memory, gains, &[], input, output, &mut [], counts);
}

// Equalises a block of frames: output frame i answers input frame i. All is judged before anything is written.
pub fn block(
    memory: &mut [i32],
    gains: &[i32],
    input: &[i32],
    output: &mut [i32],
) -> Result<usize, BlockError>
    ensures { Done (block_of memory.old gains.now input.now output.old) result (memory.new, output.new) }
{
    let counts = judge(memory)?;
    if gains.len() != counts.bands() {
        return Err(BlockError::GainCount);
    }
    if first_outside(0, LARGEST_GAIN, gains).is_some() {
        return Err(BlockError::Gain);
    }
    if output.len() != input.len() {
        return Err(BlockError::OutputLength);
    }
    let frames = judge_input(input, counts)?;
    equalise(memory, gains, input, output, counts);
    Ok(frames)
}
