// Limiting to a range: a sample's 24 bits, a lent place's 32.
ghost use Rattle.std.specs.Prelude.{◌≡◌, ◌≤ℤ◌};
ghost use Rattle.whole.specs.Limit.{limit};

// z where it lies from LEAST to MOST, else the end that it passed.
pub fn limit<const LEAST: i32, const MOST: i32>(z: i64) -> i32
    requires { LEAST ≤ℤ MOST }
    ensures { result ≡ limit LEAST MOST z }
{
    z.clamp(i64::from(LEAST), i64::from(MOST)) as i32
}
