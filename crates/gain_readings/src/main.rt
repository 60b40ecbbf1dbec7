// What the gain command answers to the floats below, to the floats next to them, and to the negatives of all of these.
#![tactic(auto)]

ghost use Rattle.std.specs.Prelude.{◌≡◌, unsigned_abs};
ghost use Rattle.gain.specs.Answer.{answer_of};
ghost use Rattle.printing.specs.Told.{numbered, with_value};

use answers::refused::{Numbered, Refused};
use gain::{Command, GainError};
use printing::told;
use std::io;
use std::num::f32_from_bits_with_nan;

// 0, 0.5, 1, 1.5, .. 12, as bit patterns: the half decibels.
const HALVES: [u32; 25] = [
    0x00000000, 0x3f000000, 0x3f800000, 0x3fc00000, 0x40000000, 0x40200000, 0x40400000, 0x40600000,
    0x40800000, 0x40900000, 0x40a00000, 0x40b00000, 0x40c00000, 0x40d00000, 0x40e00000, 0x40f00000,
    0x41000000, 0x41080000, 0x41100000, 0x41180000, 0x41200000, 0x41280000, 0x41300000, 0x41380000,
    0x41400000,
];

// 0.25, 12.5, 24, the largest subnormal, infinity and a NaN.
const NO_HALVES: [u32; 6] = [
    0x3e800000, 0x41480000, 0x41c00000, 0x007fffff, 0x7f800000, 0x7fc00000,
];

// 1, 3, 5, 8191, 8193, 32765 and 32767 of 8,192: a tie each.
const TIES: [u32; 7] = [
    0x39000000, 0x39c00000, 0x3a200000, 0x3f7ff800, 0x3f800400, 0x407ffa00, 0x407ffe00,
];

// 0, the largest subnormal, 1, 4, 12.5, infinity and a NaN.
const ENDS: [u32; 7] = [
    0x00000000, 0x007fffff, 0x3f800000, 0x40800000, 0x41480000, 0x7f800000, 0x7fc00000,
];

// A gain without its sign, or its refusal.
fn unsigned(gained: Result<i32, GainError>) -> Result<u32, Refused>
    ensures { numbered result ≡ with_value unsigned_abs (answer_of gained) }
{
    gained.map(i32::unsigned_abs).map_err(GainError::refused)
}

fn write(rt: &impl Print, command: Command) -> io::Result<()> {
    let answer = unsigned(gain::gain(command));
    told(rt, answer.map_err(|refused| refused.number))?;
    println!(rt)
}

// The command of each float, and of its negative.
fn each<F: Fn(f32) -> Command>(
    rt: &impl Print,
    name: &str,
    command: F,
    patterns: &[u32],
) -> io::Result<()>
    requires { F.IsAlwaysCallable command }
{
    for pattern in patterns {
        for sign in [0, 0x80000000] {
            let bits = pattern.wrapping_add(sign);
            for near in [bits.wrapping_sub(1), bits, bits.wrapping_add(1)] {
                print!(rt; "{name} {near:08x}")?;
                write(rt, command(f32_from_bits_with_nan(near)))?;
            }
        }
    }
    Ok(())
}

fn main(rt: HostRuntime) -> io::Result<()> {
    each(&rt, "decibels", Command::Decibels, &HALVES)?;
    each(&rt, "decibels", Command::Decibels, &NO_HALVES)?;
    each(&rt, "factor", Command::Factor, &TIES)?;
    each(&rt, "factor", Command::Factor, &ENDS)?;
    print!(&rt; "off")?;
    write(&rt, Command::Off)
}
