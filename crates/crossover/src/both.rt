// Both feeds in one pass: the library weighs its rows with the gains of the bass bands, behind which there are none, and with those of the horn bands.
ghost use Rattle.std.specs.Prelude.{◌≡◌, ◌≤◌, length};
ghost use Rattle.crossover.specs.Cross.{crossed};
ghost use Rattle.crossover.specs.Helpers.{FromOn, Ready};

use octave::counts::Counts;
use octave::pass::pass;

// The gains from place `from` on, each in its place; 0 before it. Ten places, since memory is fixed.
fn from_on(gains: &[i32], from: usize) -> [i32; 10]
    requires { (from ≤ length gains.now) × (length gains.now ≤ 10) }
    ensures { FromOn from gains.now result }
{
    let mut found = [0i32; 10];
    found[from..gains.len()].copy_from_slice(&gains[from..]);
    found
}

// Bands 1 to s to the bass, the others to the horn. Everything has been judged.
pub(crate) fn feed_both(
    memory: &mut [i32],
    gains: &[i32],
    s: usize,
    input: &[i32],
    bass: &mut [i32],
    horn: &mut [i32],
    counts: Counts,
)
    requires { Ready counts memory.old gains.now s input.now bass.old horn.old }
    ensures { (memory.new, bass.new, horn.new) ≡ crossed memory.old gains.now s input.now }
{
    let high = from_on(gains, s);
    pass(
        memory,
        &gains[..s],
        &high[..gains.len()],
        input,
        bass,
        horn,
        counts,
    );
}
