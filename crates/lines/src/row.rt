// One line over a row, in place: the row stands first in the matrix and leaves the line's aligned row there, with the low row behind it. For
// each sample its aligned sample and its low sample, then the store.
ghost use Rattle.std.specs.Prelude.{◌≡◌, ◌+◌, ◌-◌, min, take};
ghost use Rattle.std.proofs.Math.Seq.{slice};
ghost use Rattle.tree.specs.Prototype.{published};
ghost use Rattle.lines.specs.Rows.{row_places, line};
ghost use Rattle.lines.specs.Helpers.{Between, Part, LineDone};

use ring::line::{Line, Ring};

// The places of a row in the matrix.
pub const ROW: usize = 32;

// The samples from `from` to `to`. What is known of where their taps stand (ring::line::Line::low) is known of each.
fn part<const BACK: usize, const ROUND: usize>(
    lines: &mut [i32],
    ring: Ring,
    from: usize,
    to: usize,
    rows: &mut [i32],
)
    requires { Part published lines.old ring.size ring.at ring.l from to rows.old × Between BACK ROUND ring.l ring.at from to }
    ensures { LineDone (line published ring.size ring.l (ring.at + from) lines.old (slice from to (take row_places rows.old))) from to rows.old lines.new rows.new }
{
    // By places: two rows and the line are read and written at once, and of what `iter_mut().zip(..)` wrote the library has no fact.
    for i in from..to {
        let x = rows[i];
        let at = ring.at + i;
        let line = Line {
            places: lines,
            ring: Ring { at, ..ring },
        };
        rows[i] = line.late();
        rows[ROW + i] = line.low::<BACK, ROUND>(x);
        lines[at] = x;
    }
}

// How many of n samples from `at` on stand before `end`.
fn up_to(end: usize, at: usize, n: usize) -> usize
    ensures { result ≡ min (end - at) n }
{
    end.saturating_sub(at).min(n)
}

// A whole row of n samples: the parts where taps wrap come first.
pub(crate) fn line_over(lines: &mut [i32], ring: Ring, n: usize, rows: &mut [i32])
    requires { Part published lines.old ring.size ring.at ring.l 0 n rows.old }
    ensures { LineDone (line published ring.size ring.l ring.at lines.old (take n rows.old)) 0 n rows.old lines.new rows.new }
{
    let w = up_to(9 * ring.l, ring.at, n);
    let v = up_to(18 * ring.l, ring.at, n);
    part::<0, 9>(lines, ring, 0, w, rows);
    part::<9, 18>(lines, ring, w, v, rows);
    part::<18, 19>(lines, ring, v, n, rows);
}
