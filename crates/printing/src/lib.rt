// What the programs that run readings share: answers on standard output, and lists of places.
// No contract can say what is written. A function that hands something over says what it is.
#![tactic(auto)]

pub mod places;

use std::fmt::Display;
use std::io;

// `accepted` and the value that a call answered, or `refused` and the number of its refusal, both of any size.
// eqwave's `say::refused` prints the word too: a Display in answers would be longer than both lines.
pub fn told<T: Copy + Display, N: Copy + Display>(
    rt: &impl Print,
    answer: Result<T, N>,
) -> io::Result<()> {
    match answer {
        Ok(n) => print!(rt; " accepted {n}"),
        Err(number) => print!(rt; " refused {number}"),
    }
}
