// The gain differences of neighbouring bands, worked out once a block: with them the gain sum takes one product a line.
ghost use Rattle.std.specs.Prelude.{◌≡◌, ◌≤◌, ◌^◌, length, get_or, pos, nat_abs};
ghost use Rattle.tree.specs.Signal.{gain_of};
ghost use Rattle.weighing.specs.Helpers.{Allowed, Differ, Small, Above, Below};

// The differences, lowest band first, and the lines that count: those from `low` on and before `top`.
// Ten places for any number of bands: memory is fixed, there is no heap.
#[derive(Clone, Copy)]
pub struct Weights {
    pub differences: [i32; 10],
    pub low: usize,
    pub top: usize,
    pub ghost few: { top ≤ 10 },
    pub ghost small: { Small differences },
    pub ghost above: { Above top differences },
    pub ghost below: { Below low top differences },
}

// The gain of a band, lowest first; above the last there is none.
fn gain(gains: &[i32], i: usize) -> i32
    requires { Allowed 10 gains.now }
    ensures { (result ≡ get_or gains.now i (pos 0)) × (nat_abs result ≤ 2 ^ 14) }
{
    gains.get(i).copied().unwrap_or(0)
}

impl Weights {
    // The gain of each band less that of the band above. Every line that has a gain counts.
    pub fn of(gains: &[i32]) -> Weights
        requires { Allowed 10 gains.now }
        ensures { Differ (gain_of gains.now) result.differences × (result.top ≡ length gains.now) }
    {
        let mut differences = [0; 10];
        for (i, difference) in differences.iter_mut().enumerate() {
            *difference = gain(gains, i) - gain(gains, i + 1);
        }
        Weights {
            differences,
            low: 0,
            top: gains.len(),
        }
    }

    // The same, where the lowest lines with the difference 0 do not count: they add nothing.
    pub fn from_lowest(self) -> Weights
        ensures { (result.differences ≡ self.differences) × (result.top ≡ self.top) }
    {
        let low = self.differences[..self.top]
            .iter()
            .position(|difference| *difference != 0)
            .unwrap_or(self.top);
        Weights {
            differences: self.differences,
            low,
            top: self.top,
        }
    }
}
