// The arguments that the system hands over, in turn.
ghost use Rattle.arguments.specs.Given.{OneTaken, AllTaken};

use crate::taking;
use std::env::{Env, FillError};

// Whether the system hands over no argument at that place: they end there.
fn missing(rt: &impl Env, i: usize) -> bool {
    let mut text = [0u8; 8];
    matches!(rt.arg(i, &mut text), Err(FillError::NotPresent))
}

// How many arguments the system hands over, the program's name among them.
fn arg_count(rt: &impl Env) -> usize {
    (0..usize::MAX)
        .find(|i| missing(rt, *i))
        .unwrap_or(usize::MAX)
}

// One argument's bytes. One that is longer than eight bytes is refused.
fn another(rt: &impl Env, before: Option<usize>, i: usize, gains: &mut [i32]) -> Option<usize>
    ensures { OneTaken before gains.old result gains.new }
{
    let mut text = [0u8; 8];
    let n = rt.arg(i, &mut text).ok()?;
    taking::another(before, &text[..n], gains)
}

// All arguments, one after the other.
pub fn take(rt: &impl Env, gains: &mut [i32]) -> Option<usize>
    ensures { AllTaken gains.old result gains.new }
{
    let mut taken = Some(0);
    for i in 1..arg_count(rt) {
        taken = another(rt, taken, i, gains);
    }
    taken
}
