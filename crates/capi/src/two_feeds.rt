// The crossover call.
ghost use Rattle.crossover.specs.Answer.{cross_answer};
ghost use Rattle.crossover.specs.Cross.{cross_of};
ghost use Rattle.encoding.specs.Answers.{of_count, Returned};

use crossover::cross::cross;
use encoding::code::count;

#[unsafe(no_mangle)]
pub extern "C" fn oeq_crossover(
    memory: &mut [i32],
    gains: &[i32],
    split: i32,
    input: &[i32],
    bass: &mut [i32],
    horn: &mut [i32],
) -> i64
    ensures { Returned (λ a. of_count (cross_answer a)) (cross_of memory.old gains.now split input.now bass.old horn.old) result (memory.new, bass.new, horn.new) }
{
    count(cross(memory, gains, split, input, bass, horn))
}
