// Decibels to a gain: one table, one entry for each half decibel from -12 to 12.
ghost use Rattle.std.specs.Prelude.{◌≡◌, ℕ, ◌<◌, false, true, pos, ◌-ℤ◌, MatchOption};
ghost use Rattle.std.specs.Float.Ieee.{eq};
ghost use Rattle.gain.specs.Decibels.{decibels_gain, half_decibel};
ghost use Rattle.gain.specs.Table.{entry};

use crate::GainError;

// Entry i is the nearest whole number to 4,096·10^((i - 24)/40).
const GAINS: [i32; 49] = [
    1029, 1090, 1154, 1223, 1295, 1372, 1453, 1539, 1631, 1727, 1830, 1938, 2053, 2175, 2303, 2440,
    2584, 2738, 2900, 3072, 3254, 3446, 3651, 3867, 4096, 4339, 4596, 4868, 5157, 5462, 5786, 6129,
    6492, 6876, 7284, 7715, 8173, 8657, 9170, 9713, 10289, 10898, 11544, 12228, 12953, 13720,
    14533, 15394, 16306,
];

fn gain_at(i: u8) -> i32
    requires { i < 49 }
    ensures { result ≡ pos (entry (pos i -ℤ pos 24)) }
{
    GAINS[usize::from(i)]
}

// The half decibel of entry i, exactly: -12.0, -11.5, .. 12.0.
pub fn half_decibel(i: u8) -> f32
    ensures { result ≡ half_decibel i }
{
    (f32::from(i) - 24.0) * 0.5
}

// The first entry whose half decibel x is. Equality of floats takes -0.0 for 0, and a NaN for nothing.
fn place_of(x: f32) -> Option<u8>
    ensures { MatchOption result ((k : ℕ) → k < 49 → eq x (half_decibel k) ≡ false) (λ i. (i < 49) × (eq x (half_decibel i) ≡ true)) }
{
    (0..49).find(|i| x == half_decibel(*i))
}

// The gain of x decibels.
pub(crate) fn decibels(x: f32) -> Result<i32, GainError>
    ensures { result ≡ decibels_gain x }
{
    let place = place_of(x).ok_or(GainError::NotHalfDecibels)?;
    Ok(gain_at(place))
}
