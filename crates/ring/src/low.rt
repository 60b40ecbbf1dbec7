// The low-pass sum in six products (rule 5.13). The samples i and 18 - i back weigh the same and are added first; a zero coefficient has
// no product. The centre comes first, then the pairs outward: fewer cycles by bench/model than inward.
ghost use Rattle.std.specs.Prelude.{◌≡◌, ◌≤◌, ◌^◌, nat_abs, ◌+ℤ◌, ◌*ℤ◌};
ghost use Rattle.ring.specs.Helpers.{Weighed};

use whole::products::multiply_add;

// The sum of two places, whatever they hold: 33 bits, and none is lost (rule 5.12).
fn pair(a: i32, b: i32) -> i64
    ensures { (result ≡ a +ℤ b) × (nat_abs result ≤ 2 ^ 32) }
{
    i64::from(a) + i64::from(b)
}

// sum + c·(a + b): two samples of one weight.
fn add_pair(sum: i64, c: i64, a: i32, b: i32) -> i64
    requires { (nat_abs sum ≤ 2 ^ 61) × (nat_abs c ≤ 2 ^ 29) }
    ensures { result ≡ sum +ℤ c *ℤ (a +ℤ b) }
{
    sum + c * pair(a, b)
}

// c(0)·x0 + c(2)·x2 + .. + c(18)·x18: the samples at the coefficients that are not 0. Each by its name: in an array its place would be no coefficient's.
pub(crate) fn weigh(
    x0: i32,
    x2: i32,
    x4: i32,
    x6: i32,
    x8: i32,
    x9: i32,
    x10: i32,
    x12: i32,
    x14: i32,
    x16: i32,
    x18: i32,
) -> i64
    ensures { Weighed x0 x2 x4 x6 x8 x9 x10 x12 x14 x16 x18 result }
{
    let s9 = multiply_add(0, 50000, x9);
    let s8 = add_pair(s9, 31158, x8, x10);
    let s6 = add_pair(s8, -8718, x6, x12);
    let s4 = add_pair(s6, 3593, x4, x14);
    let s2 = add_pair(s4, -1338, x2, x16);
    add_pair(s2, 313, x0, x18)
}
