// The line memory: its length for a band count and a channel count, preparing it, and judging a lent one.
ghost use Rattle.std.specs.Prelude.{◌≡◌};
ghost use Rattle.answers.specs.Checks.{Done};
ghost use Rattle.octave.specs.declared.memory.PrepareError.TheVariants.{Count};
ghost use Rattle.octave.specs.declared.memory.Fault.TheVariants.{CountWrong};
ghost use Rattle.octave.specs.Memory.{memory_length_of, prepare_of, kept_of};

pub use crate::counts::Counts;
use crate::layout::{CHANNELS, COUNT, POSITION};

// Which of two counts is not allowed.
#[derive(Clone, Copy, Debug, PartialEq, Eq)]
pub enum CountError {
    BandCount,
    ChannelCount,
}

// Why a memory was not prepared.
#[derive(Clone, Copy, Debug, PartialEq, Eq)]
pub enum PrepareError {
    Count(CountError),
    MemoryLength,
}

impl From<CountError> for PrepareError {
    ghost from_gives = { λ error r. r ≡ Count error };

    fn from(error: CountError) -> PrepareError {
        PrepareError::Count(error)
    }
}

// What is wrong with a lent memory.
#[derive(Clone, Copy, Debug, PartialEq, Eq)]
pub enum Fault {
    CountWrong,
    LengthWrong,
    PositionOutside,
}

impl From<CountError> for Fault {
    ghost from_gives = { λ _ r. r ≡ CountWrong };

    fn from(_error: CountError) -> Fault {
        Fault::CountWrong
    }
}

// The memory length for the counts, so that a caller can lend the right number of places.
pub fn memory_length(bands: i32, channels: i32) -> Result<usize, CountError>
    ensures { result ≡ memory_length_of bands channels }
{
    let counts = Counts::allowed(bands, channels)?;
    Ok(counts.memory_length())
}

// Fills the memory for an empty history and answers the delay.
pub fn prepare(bands: i32, channels: i32, memory: &mut [i32]) -> Result<usize, PrepareError>
    ensures { Done (prepare_of bands channels memory.old) result memory.new }
{
    let counts = Counts::allowed(bands, channels)?;
    if memory.len() != counts.memory_length() {
        return Err(PrepareError::MemoryLength);
    }
    memory.fill(0);
    memory[COUNT] = bands;
    memory[CHANNELS] = channels;
    Ok(counts.line_length() - 9)
}

// Judges a lent memory: its counts, then its length, then its position.
pub fn judge(memory: &[i32]) -> Result<Counts, Fault>
    ensures { result ≡ kept_of memory.now }
{
    if memory.len() < POSITION {
        return Err(Fault::CountWrong);
    }
    let counts = Counts::allowed(memory[COUNT], memory[CHANNELS])?;
    if memory.len() != counts.memory_length() {
        return Err(Fault::LengthWrong);
    }
    match usize::try_from(memory[POSITION]) {
        Ok(at) if at < counts.line_length() => Ok(counts),
        _ => Err(Fault::PositionOutside),
    }
}
