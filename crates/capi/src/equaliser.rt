// The equaliser's calls.
ghost use Rattle.std.specs.Prelude.{◌≡◌};
ghost use Rattle.octave.specs.Answer.{length_answer, prepared_answer, block_answer};
ghost use Rattle.octave.specs.Block.{block_of};
ghost use Rattle.octave.specs.Memory.{memory_length_of, prepare_of};
ghost use Rattle.encoding.specs.Answers.{of_count, Returned};
ghost use Rattle.encoding.specs.Encode.{encode};

use encoding::code::count;
use octave::block::block;
use octave::memory::{memory_length, prepare};

#[unsafe(no_mangle)]
pub extern "C" fn oeq_memory_length(bands: i32, channels: i32) -> i64
    ensures { result ≡ encode (of_count (length_answer (memory_length_of bands channels))) }
{
    count(memory_length(bands, channels))
}

#[unsafe(no_mangle)]
pub extern "C" fn oeq_prepare(bands: i32, channels: i32, memory: &mut [i32]) -> i64
    ensures { Returned (λ a. of_count (prepared_answer a)) (prepare_of bands channels memory.old) result memory.new }
{
    count(prepare(bands, channels, memory))
}

#[unsafe(no_mangle)]
pub extern "C" fn oeq_block(
    memory: &mut [i32],
    gains: &[i32],
    input: &[i32],
    output: &mut [i32],
) -> i64
    ensures { Returned (λ a. of_count (block_answer a)) (block_of memory.old gains.now input.now output.old) result (memory.new, output.new) }
{
    count(block(memory, gains, input, output))
}
