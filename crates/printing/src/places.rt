// Lists of places: a part, how two differ, and a list on standard output.
ghost use Rattle.std.specs.Prelude.{◌≤◌, ◌<◌, ◌^◌, min, ◌≡◌, length, not, count_by};
ghost use Rattle.std.specs.List.{zip};
ghost use Rattle.std.specs.Ordering.{int_eq};
ghost use Rattle.printing.specs.Part.{Front};
ghost use Rattle.printing.specs.Total.{code as Total·code, add as Total·add, total_from};

use std::io;

// How many of the first n places there are.
pub fn front(n: usize, s: &[i32]) -> usize
    ensures { Front n result s.now }
{
    n.min(s.len())
}

// How many places differ, as far as both lists go.
fn changed(a: &[i32], b: &[i32]) -> usize
    ensures value { result ≡ count_by (λ p. not (int_eq p.0 p.1)) (zip a.now b.now) }
    ensures upper_bound { result ≤ min (length a.now) (length b.now) }
{
    a.iter().zip(b).filter(|(x, y)| x != y).count()
}

// A place as its 32 bits count from 0 on.
fn code(z: i32) -> u64
    ensures value { result ≡ Total·code z }
    ensures upper_bound { result < 2 ^ 32 }
{
    u64::from(z.cast_unsigned())
}

fn added(sum: u64, i: usize, z: i32) -> u64
    requires { sum < 4294967291 }
    ensures value { result ≡ Total·add sum i z }
    ensures upper_bound { result < 4294967291 }
{
    (sum + code(z) * ((i % 1009 + 1) as u64)) % 4294967291
}

// Every place counts, each with a weight of its index, modulo the largest prime below 2^32.
fn total(s: &[i32]) -> u64
    ensures { result ≡ total_from 0 0 s.now }
{
    let mut sum = 0;
    for (i, z) in s.iter().enumerate() {
        sum = added(sum, i, *z);
    }
    sum
}

fn fields(rt: &impl Print, s: &[i32]) -> io::Result<()> {
    for z in s {
        print!(rt; " {z}")?;
    }
    Ok(())
}

// How many places, and each of them, or their total if they are many.
pub fn list(rt: &impl Print, s: &[i32]) -> io::Result<()> {
    print!(rt; " {}", s.len())?;
    if s.len() <= 40 {
        fields(rt, s)
    } else {
        print!(rt; " total {}", total(s))
    }
}

// How many places are not as they were before, and the list.
pub fn compared(rt: &impl Print, s: &[i32], before: &[i32]) -> io::Result<()> {
    print!(rt; " {}", changed(s, before))?;
    list(rt, s)
}
