// Runs the cases that standard input has, of one channel and of two: the memory length, prepare and block at every edge, and courses of
// blocks at 2, 3, 8 and 10 bands. A case is a few numbers: what is asked, then its own. tests/readings.py writes the cases, and works
// out from the rules what this program is to write.
#![tactic(auto)]

use cases::fill::fill;
use cases::words::word;
use reading_calls::call;
use reading_calls::lists::{Before, Lists};
use std::io;
use std::io::Read;

// The places of the lists that the calls are lent. The memory has as many as the layout would give to eleven bands of one channel; input and
// output have one frame more than a block of two channels may have.
#[derive(Clone, Copy)]
struct Places {
    memory: [i32; 92163],
    gains: [i32; 10],
    input: [i32; 8194],
    output: [i32; 8194],
}

// A block call on the lists.
fn blocked(
    rt: &impl Print,
    cases: &mut impl Read,
    places: &mut Places,
    before: &Places,
) -> io::Result<()> {
    let lists = Lists {
        memory: &mut places.memory,
        gains: &places.gains,
        input: &places.input,
        output: &mut places.output,
    };
    let before = Before {
        memory: &before.memory,
        output: &before.output,
    };
    call::blocked(rt, cases, lists, before)
}

// One case, on lists that are as the cases before it left them. What is asked is a number of standard input, told here alone.
fn one(rt: &impl Print, cases: &mut impl Read, places: &mut Places) -> io::Result<()> {
    let before = *places;
    match word(cases) {
        0 => call::length(rt, cases)?,
        1 => call::prepared(rt, cases, &mut places.memory, &before.memory)?,
        2 => blocked(rt, cases, places, &before)?,
        3 => fill(cases, &mut places.memory),
        4 => fill(cases, &mut places.gains),
        5 => fill(cases, &mut places.input),
        _ => fill(cases, &mut places.output),
    }
    Ok(())
}

fn main(rt: HostRuntime) -> io::Result<()> {
    let mut places = Places {
        memory: [0; 92163],
        gains: [0; 10],
        input: [0; 8194],
        output: [0; 8194],
    };
    let mut cases = rt.stdin();
    for _ in 0..word(&mut cases) {
        one(&rt, &mut cases, &mut places)?;
    }
    Ok(())
}
