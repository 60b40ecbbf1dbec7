// The aligned rows of the lines weighed with the gain differences: the gain sum, rounded once and limited once. Gains enter here alone.
ghost use Rattle.std.specs.Prelude.{◌≤◌, ◌<◌, ◌*◌, ◌≡◌, length};
ghost use Rattle.tree.specs.Signal.{gain_of};
ghost use Rattle.lines.specs.Rows.{row_places};
ghost use Rattle.weighing.specs.Helpers.{Allowed, SumDone, SideWeighed, WeighedUnder};

use crate::weights::Weights;
use answers::unit::{LEAST_SAMPLE, MOST_SAMPLE, UNITY};
use frames::sides::Side;
use lines::row::ROW;
use whole::limiting::limit;
use whole::products::multiply_add;
use whole::rounding::nearest;

// A row of n aligned samples for each of so many bands, the top line's first.
#[derive(Clone, Copy)]
pub struct Matrix<'a> {
    pub rows: &'a [i32],
    pub bands: usize,
    pub n: usize,
    pub ghost some: { 1 ≤ bands },
    pub ghost few: { bands ≤ 10 },
    pub ghost short: { n ≤ row_places },
    pub ghost room: { row_places * bands ≤ length rows.now },
}

// The gain sum of sample i of the rows: a product for each line that counts. The top line's row comes first; it has no gain above its own, so that
// its difference is g(M).
fn sum_at(weights: &Weights, matrix: Matrix, i: usize) -> i64
    requires { (i < matrix.n) × (weights.now.top ≤ matrix.bands) }
    ensures { SumDone matrix.entry.bands i matrix.entry.rows.now weights.now.differences result }
{
    let mut sum = 0;
    // By b: zipped, the rows by `step_by` are cut at `top` and i, past their end where no line counts, and the differences turned round: no plainer.
    for b in (weights.low..weights.top).rev() {
        let sample = matrix.rows[ROW * (matrix.bands - 1 - b) + i];
        sum = multiply_add(sum, i64::from(weights.differences[b]), sample);
    }
    sum
}

// An output for each of the n samples of the rows, put in the output's frames on the side.
pub fn weigh_rows(weights: &Weights, matrix: Matrix, side: Side, output: &mut [i32])
    requires { (weights.now.top ≤ matrix.bands) × (length output.old ≡ side.channels * matrix.n) }
    ensures { SideWeighed side.channels side.s matrix.entry.n matrix.entry.bands matrix.entry.rows.now weights.now.differences output.old output.new }
{
    // By places: of what `chunks_exact_mut` wrote the library has no fact.
    for i in 0..matrix.n {
        let rounded = nearest::<UNITY>(sum_at(weights, matrix, i));
        output[side.channels * i + side.s] = limit::<LEAST_SAMPLE, MOST_SAMPLE>(rounded);
    }
}

// .. and with gains, whose differences are worked out for this row alone. That they are allowed is asked here and not in a type: of other gains it is known
// only where there are any (`Second`).
pub fn weigh_with(gains: &[i32], matrix: Matrix, side: Side, output: &mut [i32])
    requires { Allowed matrix.bands gains.now × (length output.old ≡ side.channels * matrix.n) }
    ensures { WeighedUnder side.channels side.s matrix.entry.n matrix.entry.bands (gain_of gains.now) matrix.entry.rows.now output.old output.new }
{
    let weights = Weights::of(gains).from_lowest();
    weigh_rows(&weights, matrix, side, output);
}
