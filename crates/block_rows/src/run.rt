// One side's samples through its lines, row after row. The lines are a slice with their size and position beside it: the cascade takes them so.
ghost use Rattle.std.specs.Prelude.{◌≡◌, ◌≤◌, ◌<◌, ◌+◌, ◌-◌, ◌*◌, ◌%◌, length};
ghost use Rattle.frames.specs.Frames.{side as side_numbers, side_of};
ghost use Rattle.tree.specs.Prototype.{published};
ghost use Rattle.lines.specs.Cascade.{run};
ghost use Rattle.lines.specs.Rows.{row_places, wrapped, rowed};
ghost use Rattle.lines.specs.Helpers.{Region, RowRegion, RowsDone};
ghost use Rattle.weighing.specs.Helpers.{Allowed};
ghost use Rattle.block_rows.specs.Helpers.{Second, BothDone};

use frames::count::frames_in;
use frames::sides::Side;
use lines::cascade::cascade;
use lines::row::ROW;
use weighing::rows::{Matrix, weigh_rows, weigh_with};
use weighing::weights::Weights;

// A block of samples for the lines of so many bands: its gains, and those of a second weighing, none where none is asked for: an Option of them would leave
// the second output, which is lent to be written, an Option of its own beside it.
#[derive(Clone, Copy)]
pub struct Block<'a> {
    pub bands: usize,
    pub gains: &'a [i32],
    pub others: &'a [i32],
    pub input: &'a [i32],
    pub ghost allowed: { Allowed bands gains.now },
}

// How many samples the next row has: not past the matrix, the block or the ring's end.
fn row_length(size: usize, at: usize, left: usize) -> usize
    requires { (at < size) × (1 ≤ left) }
    ensures { (1 ≤ result) × (result ≤ row_places) × (result ≤ left) × (at + result ≤ size) }
{
    ROW.min(left).min(size - at)
}

// The place n samples on, where a row ends: at the ring's end it is 0.
fn wrapped(size: usize, at: usize) -> usize
    requires { at ≤ size }
    ensures { result ≡ wrapped size at }
{
    if at < size { at } else { 0 }
}

// A row of n samples of one side: taken out of its frames and through the lines; the rows then show each line's aligned samples.
fn side_row(
    lines: &mut [i32],
    size: usize,
    at: usize,
    bands: usize,
    side: Side,
    n: usize,
    input: &[i32],
    rows: &mut [i32],
)
    requires { RowRegion published bands size at 1 n lines.old rows.old × (length input.now ≡ side.channels * n) × (side.channels ≤ 2) }
    ensures { RowsDone (rowed published size (bands - 1) 1 at lines.old (side_numbers side.channels side.s n input.now)) n lines.new rows.new }
{
    side.gather(input, n, rows);
    cascade(lines, size, at, 1, bands, n, rows);
}

// Every sample of one side of the block, from the position `from`, in the matrix lent, weighed with its gains into the output; where there are other
// gains, each row is weighed with them too, into the second output. Answers the position afterwards.
pub fn each_row(
    lines: &mut [i32],
    size: usize,
    from: usize,
    block: &Block,
    side: Side,
    rows: &mut [i32],
    output: &mut [i32],
    second: &mut [i32],
) -> usize
    requires { Region published block.now.bands size 1 lines.old × (from < size) × Second block.now.bands block.now.others.now block.now.input.now second.old × (length output.old ≡ length block.now.input.now) × (length block.now.input.now % side.channels ≡ 0) × (row_places * block.now.bands ≤ length rows.old) × (side.channels ≤ 2) }
    ensures { BothDone side.channels side.s (run published size (block.now.bands - 1) from lines.old (side_of side.channels side.s block.now.input.now)) block.now.gains.now block.now.others.now lines.new result output.old output.new second.old second.new }
{
    let Block {
        bands,
        gains,
        others,
        input,
    } = *block;
    let weights = Weights::of(gains);
    let twice = 0 < others.len();
    let frames = frames_in(input.len(), side.channels);
    let mut at = from;
    let mut i = 0;
    // A row's length varies, so that the loop is no `for`.
    while i < frames {
        let n = row_length(size, at, frames - i);
        let first = side.channels * i;
        let end = side.channels * (i + n);
        side_row(lines, size, at, bands, side, n, &input[first..end], rows);
        let matrix = Matrix { rows, bands, n };
        weigh_rows(&weights, matrix, side, &mut output[first..end]);
        if twice {
            weigh_with(others, matrix, side, &mut second[first..end]);
        }
        at = wrapped(size, at + n);
        i += n;
    }
    at
}
