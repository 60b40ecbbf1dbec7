// One call, told: what is asked, what is answered, and how many lent places have changed.
use crate::answer::answer;
use crate::lists::{Before, Lists};
use answers::refused::Refused;
use cases::words::{place, word};
use octave::block::block;
use octave::memory::{memory_length, prepare};
use printing::places::{compared, front, list};
use printing::told;
use std::io;
use std::io::Read;

// The counts that a call asks for: bands, and channels.
fn counts(cases: &mut impl Read) -> (i32, i32) {
    (place(word(cases)), place(word(cases)))
}

// The first so many places.
fn first<'a>(cases: &mut impl Read, s: &'a [i32]) -> &'a [i32] {
    let n = front(word(cases) as usize, s);
    &s[..n]
}

// .. of a list that is lent to be written.
fn first_mut<'a>(cases: &mut impl Read, s: &'a mut [i32]) -> &'a mut [i32] {
    let n = front(word(cases) as usize, s);
    &mut s[..n]
}

// An answer with its refusal's number.
fn tell(rt: &impl Print, answered: Result<usize, Refused>) -> io::Result<()> {
    told(rt, answered.map_err(|refused| refused.number))
}

pub fn length(rt: &impl Print, cases: &mut impl Read) -> io::Result<()> {
    let (bands, channels) = counts(cases);
    print!(rt; "length {bands} {channels}")?;
    tell(rt, answer(memory_length(bands, channels)))?;
    println!(rt)
}

// Prepare on the first so many places.
pub fn prepared(
    rt: &impl Print,
    cases: &mut impl Read,
    memory: &mut [i32],
    before: &[i32],
) -> io::Result<()> {
    let (bands, channels) = counts(cases);
    let memory = first_mut(cases, memory);
    print!(rt; "prepare {bands} {channels}")?;
    tell(rt, answer(prepare(bands, channels, memory)))?;
    compared(rt, memory, before)?;
    println!(rt)
}

// What a block is lent: the memory's length, its counts and its position, the gains, the input and the output's length.
fn lent(
    rt: &impl Print,
    memory: &[i32],
    gains: &[i32],
    input: &[i32],
    output: &[i32],
) -> io::Result<()> {
    print!(rt; "block {}", memory.len())?;
    list(rt, &memory[..front(3, memory)])?;
    list(rt, gains)?;
    list(rt, input)?;
    println!(rt; " {}", output.len())
}

// Block on the first so many places of each list, and on the line before it what is lent.
// Behind the answer stands the place of its refusal, 0 where it has none.
pub fn blocked(
    rt: &impl Print,
    cases: &mut impl Read,
    lists: Lists,
    before: Before,
) -> io::Result<()> {
    let Lists {
        memory,
        gains,
        input,
        output,
    } = lists;
    let memory = first_mut(cases, memory);
    let gains = first(cases, gains);
    let input = first(cases, input);
    let output = first_mut(cases, output);
    lent(rt, memory, gains, input, output)?;
    let answered = answer(block(memory, gains, input, output));
    tell(rt, answered)?;
    print!(rt; " {}", answered.err().map_or(0, |refused| refused.place))?;
    compared(rt, memory, before.memory)?;
    compared(rt, output, before.output)?;
    println!(rt)
}
