// The cascade: a row of samples goes down the lines, each line's aligned row is left in the matrix.
ghost use Rattle.std.specs.Prelude.{◌-◌, take};
ghost use Rattle.tree.specs.Prototype.{published};
ghost use Rattle.lines.specs.Rows.{rowed};
ghost use Rattle.lines.specs.Helpers.{RowRegion, RowsDone};

use crate::row::{ROW, line_over};
use ring::line::Ring;

// The first n samples of the matrix through the lines of `bands` bands. The low row goes to the same tree with one band fewer and the stretch
// doubled, which works only in the rest of the lines, behind this one; the low row of two bands is band 1 itself.
// No struct of the lines or of the matrix: each level lends on all but the first line and the first row, so that it would be taken apart and made again.
pub fn cascade(
    lines: &mut [i32],
    size: usize,
    at: usize,
    l: usize,
    bands: usize,
    n: usize,
    rows: &mut [i32],
)
    requires { RowRegion published bands size at l n lines.old rows.old }
    ensures { RowsDone (rowed published size (bands - 1) l at lines.old (take n rows.old)) n lines.new rows.new }
{
    if bands == 1 {
        return;
    }
    line_over(lines, Ring { size, at, l }, n, rows);
    // Three numbers, and no `Ring`: handed on by its place it keeps the recursion from being a loop, and a block of one sample takes a tenth longer, where bench/run
    // allows three in a hundred.
    cascade(
        &mut lines[size..],
        size,
        at,
        2 * l,
        bands - 1,
        n,
        &mut rows[ROW..],
    );
}
