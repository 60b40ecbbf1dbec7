// What standard input hands over. Nothing is known of those bytes.
ghost use Rattle.std.specs.Prelude.{◌≤◌, length, take};
ghost use Rattle.fields.specs.Bytes.{Bytes};
ghost use Rattle.runs.specs.Program.{Fetched};

use std::io::Read;

// Fills the bytes from standard input, and answers how many came. A read that fails is its end.
// A loop: the library's methods read all or nothing, or onto a heap, and here as much as comes is wanted.
pub fn fill(stdin: &mut impl Read, bytes: &mut [u8]) -> usize
    ensures { result ≤ length bytes.new }
{
    let mut done = 0;
    while done < bytes.len() {
        let n = stdin.read(&mut bytes[done..]).unwrap_or(0);
        if n == 0 {
            break;
        }
        done += n;
    }
    done
}

// The data bytes that a turn wants: those of the front from a place on, then those of standard input. Answers how many there were.
#[tactic(auto, unfolding(eqfile::specs::Front::carry_of))]
pub fn fetch(stdin: &mut impl Read, front: &[u8], from: usize, bytes: &mut [u8]) -> usize
    ensures fetched { Fetched front.now from (length bytes.old) (take result bytes.new) }
    ensures upper_bound { result ≤ length bytes.old }
    ensures bytes { Bytes (take result bytes.new) }
{
    let had = eqfile::carry(front, from, bytes);
    had + fill(stdin, &mut bytes[had..])
}
