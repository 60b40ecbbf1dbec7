// One line of the memory: a ring of `size` places, `at` the place of the next sample. Reads come before the store, so the
// oldest sample is still there. A tap is the sample i·l back.
ghost use Rattle.std.specs.Prelude.{◌≡◌, ◌≤◌, ◌*◌};
ghost use Rattle.tree.specs.Prototype.{published};
ghost use Rattle.ring.specs.Line.{ago, low_value, late_value};
ghost use Rattle.ring.specs.Helpers.{Within, Reach};

use crate::low::weigh;
use answers::unit::{LEAST_PLACE, MOST_PLACE};
use whole::limiting::limit;
use whole::rounding::nearest;

// What stands for 1 in the coefficients.
const SCALE: u32 = 100000;

// A ring of `size` places, the place of its next sample, and the stretch of the taps.
#[derive(Clone, Copy)]
pub struct Ring {
    pub size: usize,
    pub at: usize,
    pub l: usize,
}

// A line before its next sample is stored. Its size is no length of `places`: behind its own places stand those of the lines below.
#[derive(Clone, Copy)]
pub struct Line<'a> {
    pub places: &'a [i32],
    pub ring: Ring,
    pub ghost within: { Within published places.now ring.size ring.at ring.l },
}

impl<'a> Line<'a> {
    // The tap. Those up to BACK·l back stand before the position, those from ROUND·l on around the end of the ring, so
    // that only those between are looked at.
    fn tap<const BACK: usize, const ROUND: usize>(&self, i: usize) -> i32
        requires { Reach BACK ROUND self.now.ring.at self.now.ring.l × (i ≤ 18) }
        ensures { result ≡ ago self.now.places.now self.now.ring.size self.now.ring.at (i * self.now.ring.l) }
    {
        let ring = self.ring;
        let back = i * ring.l;
        if i <= BACK || i < ROUND && back <= ring.at {
            return self.places[ring.at - back];
        }
        self.places[ring.at + ring.size - back]
    }

    // The new value of the line below.
    pub fn low<const BACK: usize, const ROUND: usize>(&self, x: i32) -> i32
        requires { Reach BACK ROUND self.now.ring.at self.now.ring.l }
        ensures { result ≡ low_value published self.now.places.now self.now.ring.size self.now.ring.at self.now.ring.l x }
    {
        let sum = weigh(
            x,
            self.tap::<BACK, ROUND>(2),
            self.tap::<BACK, ROUND>(4),
            self.tap::<BACK, ROUND>(6),
            self.tap::<BACK, ROUND>(8),
            self.tap::<BACK, ROUND>(9),
            self.tap::<BACK, ROUND>(10),
            self.tap::<BACK, ROUND>(12),
            self.tap::<BACK, ROUND>(14),
            self.tap::<BACK, ROUND>(16),
            self.tap::<BACK, ROUND>(18),
        );
        limit::<LEAST_PLACE, MOST_PLACE>(nearest::<SCALE>(sum))
    }

    // This line's aligned sample: the one size - 9·l back is 9·l ahead, around the end.
    pub fn late(&self) -> i32
        ensures { result ≡ late_value published self.now.places.now self.now.ring.size self.now.ring.at self.now.ring.l }
    {
        let Ring { size, at, l } = self.ring;
        let ahead = at + 9 * l;
        if ahead < size {
            return self.places[ahead];
        }
        self.places[ahead - size]
    }
}
