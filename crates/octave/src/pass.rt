// One pass of a block's samples through the lines. A helper of the calls, which have judged everything: it `requires` that.
ghost use Rattle.octave.specs.Helpers.{Judged, JudgedAgain, Passed};

use crate::counts::Counts;
use crate::layout::{HEAD, POSITION};
use block_sides::run::run;

// The samples through the lines from the position on, and the position afterwards; the output under `gains`, and in the same pass, where there are
// other gains, a second one under these. Without a second weighing its slices are empty.
// Each gains and their output are handed on as `run` takes them: a pair, or an Option of one, would be taken apart again in each function below. So would the memory with
// its counts, since what is judged (`Judged`) speaks of the gains and the lengths too.
pub fn pass(
    memory: &mut [i32],
    gains: &[i32],
    others: &[i32],
    input: &[i32],
    output: &mut [i32],
    second: &mut [i32],
    counts: Counts,
)
    requires { Judged counts memory.old gains.now input.now output.old × JudgedAgain counts.bands others.now input.now second.old }
    ensures { Passed memory.old gains.now others.now input.now memory.new output.new second.new }
{
    let size = counts.line_length();
    let from = memory[POSITION] as usize;
    let at = run(
        &mut memory[HEAD..],
        size,
        from,
        counts.bands,
        counts.channels,
        gains,
        others,
        input,
        output,
        second,
    );
    memory[POSITION] = at as i32;
}
