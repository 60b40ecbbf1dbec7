// Division to the nearest whole number, a tie away from zero: half a divisor is added on the number's own side of zero,
// and the quotient cut toward zero. One division by a constant, which compiles to a multiplication.
ghost use Rattle.std.specs.Prelude.{◌≡◌, ◌≤◌, ◌<◌, ◌^◌, nat_abs};
ghost use Rattle.whole.specs.Nearest.{nearest};

// The nearest whole number of z over D: of a line's sum over the prototype's scale, of a gain sum over unity.
pub fn nearest<const D: u32>(z: i64) -> i64
    requires { (0 < D) × (nat_abs z ≤ 2 ^ 62) }
    ensures { result ≡ nearest D z }
{
    let half = i64::from(D / 2);
    let moved = if z < 0 { z - half } else { z + half };
    moved / i64::from(D)
}
