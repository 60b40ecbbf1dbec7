// A factor to a gain: 4,096 times as large, to the nearest whole number, a tie upward.
ghost use Rattle.std.specs.Prelude.{◌≡◌};
ghost use Rattle.gain.specs.Factor.{factor_gain};

use crate::GainError;

// A float times a power of two is exact, so the whole part of 8,192·x counts the half steps of gain in 4,096·x. Half of one
// more, cut, is then the nearest gain, a tie upward. A NaN is in no range.
pub(crate) fn factor(x: f32) -> Result<i32, GainError>
    ensures { result ≡ factor_gain x }
{
    if !(0.0..=4.0).contains(&x) {
        return Err(GainError::NotFactor);
    }
    let half_steps = std::num::truncating_f32_to_u64(x * 8192.0);
    Ok(((half_steps + 1) / 2) as i32)
}
