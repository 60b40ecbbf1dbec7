// One side of frames, taken to the front of a row.
ghost use Rattle.std.specs.Prelude.{◌≡◌, ◌≤◌, ◌<◌, ◌*◌, length, take};
ghost use Rattle.frames.specs.Frames.{side};

// A side: its place in each frame of so many channels.
#[derive(Clone, Copy)]
pub struct Side {
    pub channels: usize,
    pub s: usize,
    pub ghost there: { s < channels },
}

// The numbers at place s of frames of CHANNELS numbers. A stride that is known lets the compiler take four numbers at a time. A loop also for one channel:
// over the library's copy the archive would need `memmove`, which its header does not name.
fn take_side<const CHANNELS: usize>(block: &[i32], s: usize, row: &mut [i32])
    requires { (s < CHANNELS) × (length block.now ≡ CHANNELS * length row.old) }
    ensures { row.new ≡ side CHANNELS s (length row.old) block.now }
{
    // By places: of what `iter_mut().zip(..)` wrote the library has no fact.
    for (i, place) in row.iter_mut().enumerate() {
        *place = block[CHANNELS * i + s];
    }
}

impl Side {
    // The numbers of this side of n frames, at the front of the row. n is handed on beside the block: it is known, and to work it out is a division.
    pub fn gather(self, block: &[i32], n: usize, row: &mut [i32])
        requires { (length block.now ≡ self.channels * n) × (n ≤ length row.old) × (self.channels ≤ 2) }
        ensures { take n row.new ≡ side self.channels self.s n block.now }
    {
        if self.channels == 1 {
            take_side::<1>(block, self.s, &mut row[..n]);
        } else {
            take_side::<2>(block, self.s, &mut row[..n]);
        }
    }
}
