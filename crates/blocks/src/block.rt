// One block: samples through the equaliser, and its outputs to bytes.
ghost use Rattle.std.specs.Prelude.{◌≡◌};
ghost use Rattle.answers.specs.Checks.{Done};
ghost use Rattle.blocks.specs.Equalise.{lengths_fit, equalise_of};

use answers::unit::TURN_ROOM;
use octave::block::block;

// Whether a block of n samples, of which so many outputs are dropped, goes into so many bytes.
fn fits(n: usize, skipped: usize, bytes: usize) -> bool
    ensures { result ≡ lengths_fit n skipped bytes }
{
    n <= TURN_ROOM && skipped <= n && bytes == 3 * (n - skipped)
}

// Equalises a block of the memory's channels, frame behind frame, stores its outputs but the first `skipped` samples, three bytes each, and answers how
// many bytes. None where a length is wrong or the block call refuses: the lengths are judged first, so that the memory is then as it was.
pub fn equalise(
    memory: &mut [i32],
    gains: &[i32],
    input: &[i32],
    skipped: usize,
    stored: &mut [u8],
) -> Option<usize>
    ensures { Done (equalise_of memory.old gains.now input.now skipped stored.old) result (memory.new, stored.new) }
{
    let n = input.len();
    if !fits(n, skipped, stored.len()) {
        return None;
    }
    let mut output = [0; TURN_ROOM];
    block(memory, gains, input, &mut output[..n]).ok()?;
    samples::samples_to_bytes(&output[skipped..n], stored).ok()
}
