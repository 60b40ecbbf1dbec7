// Ranges of numbers, both ends included.
ghost use Rattle.std.specs.Prelude.{◌≡◌, not, position};
ghost use Rattle.answers.specs.Range.{within};

pub fn within(lo: i32, hi: i32, z: i32) -> bool
    ensures { result ≡ within lo hi z }
{
    (lo..=hi).contains(&z)
}

// The place of the first number that is outside.
pub fn first_outside(lo: i32, hi: i32, s: &[i32]) -> Option<usize>
    ensures { result ≡ position (λ z. not (within lo hi z)) s.now }
{
    s.iter().position(|z| !within(lo, hi, *z))
}
