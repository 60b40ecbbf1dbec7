// A block's samples through the lines, side after side. The lines are a slice with their size and position beside it: the cascade takes them so.
ghost use Rattle.std.specs.Prelude.{◌≤◌, ◌<◌, ◌-◌, ◌*◌, ◌/◌, length};
ghost use Rattle.frames.specs.Frames.{side_of, places_of};
ghost use Rattle.tree.specs.Prototype.{published};
ghost use Rattle.lines.specs.Cascade.{run};
ghost use Rattle.lines.specs.Rows.{row_places};
ghost use Rattle.weighing.specs.Helpers.{Allowed};
ghost use Rattle.block_rows.specs.Helpers.{Second};
ghost use Rattle.block_sides.specs.Helpers.{Sides, BothSidesDone};

use block_rows::run::{Block, each_row};
use frames::sides::Side;

// The places of ten rows, and of four: few bands clear few places.
const TEN_ROWS: usize = 320;

const FOUR_ROWS: usize = 128;

// Every sample of the left side, and then of the right one if there is one, in a matrix of so many places.
fn each_side<const PLACES: usize>(
    lines: &mut [i32],
    size: usize,
    from: usize,
    block: &Block,
    channels: usize,
    output: &mut [i32],
    second: &mut [i32],
) -> usize
    requires { Sides block.now.bands size channels lines.old block.now.input.now output.old × (from < size) × Second block.now.bands block.now.others.now block.now.input.now second.old × (row_places * block.now.bands ≤ PLACES) × (PLACES ≤ row_places * 10) }
    ensures { BothSidesDone channels (length block.now.input.now / channels) (λ s. run published size (block.now.bands - 1) from (places_of ((block.now.bands - 1) * size) s lines.old) (side_of channels s block.now.input.now)) block.now.gains.now block.now.others.now lines.new result output.new second.new }
{
    let mut rows = [0; PLACES];
    let places = (block.bands - 1) * size;
    let mut at = from;
    for s in 0..channels {
        let first = s * places;
        // By s: a side is a part of the lines and a place in every frame. Each ends at the same position.
        at = each_row(
            &mut lines[first..first + places],
            size,
            from,
            block,
            Side { channels, s },
            &mut rows,
            output,
            second,
        );
    }
    at
}

// Every sample of the block, from the position `from`; answers the position afterwards. Its parameters are what the call was lent; the `Block` of them is made here alone.
pub fn run(
    lines: &mut [i32],
    size: usize,
    from: usize,
    bands: usize,
    channels: usize,
    gains: &[i32],
    others: &[i32],
    input: &[i32],
    output: &mut [i32],
    second: &mut [i32],
) -> usize
    requires { Sides bands size channels lines.old input.now output.old × (from < size) × Allowed bands gains.now × Second bands others.now input.now second.old }
    ensures { BothSidesDone channels (length input.now / channels) (λ s. run published size (bands - 1) from (places_of ((bands - 1) * size) s lines.old) (side_of channels s input.now)) gains.now others.now lines.new result output.new second.new }
{
    let block = Block {
        bands,
        gains,
        others,
        input,
    };
    if bands <= 4 {
        each_side::<FOUR_ROWS>(lines, size, from, &block, channels, output, second)
    } else {
        each_side::<TEN_ROWS>(lines, size, from, &block, channels, output, second)
    }
}
