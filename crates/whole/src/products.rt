// A product added to a sum.
ghost use Rattle.std.specs.Prelude.{◌≡◌, ◌≤◌, ◌^◌, nat_abs, ◌+ℤ◌, ◌*ℤ◌};

// sum + c·x. A coefficient is below 2^30 and a sum below 2^61, so the answer is below 2^62 for any place x: no bit is lost.
pub fn multiply_add(sum: i64, c: i64, x: i32) -> i64
    requires { (nat_abs sum ≤ 2 ^ 61) × (nat_abs c ≤ 2 ^ 30) }
    ensures { result ≡ sum +ℤ c *ℤ x }
{
    sum + c * i64::from(x)
}
