// Gain commands: decibels, a factor, or off, each answered by a gain or a refusal.
#![tactic(auto)]

ghost use Rattle.std.specs.Prelude.{◌≡◌};
ghost use Rattle.std.proofs.Common.{rules};
ghost use Rattle.gain.specs.Answer.{gain_refusal};
ghost use Rattle.gain.specs.Promise.{command_gain};

mod decibels;
mod factor;

use answers::refused::{Numbered, Refused};
pub use decibels::half_decibel;

#[derive(Clone, Copy, Debug, PartialEq)]
pub enum Command {
    Decibels(f32),
    Factor(f32),
    Off,
}

// What a command is refused with.
#[derive(Clone, Copy, Debug, PartialEq, Eq)]
pub enum GainError {
    // 11
    NotHalfDecibels,
    // 12
    NotFactor,
}

impl Numbered for GainError {
    ghost refusal = { gain_refusal };

    fn refused(self) -> Refused {
        match self {
            GainError::NotHalfDecibels => Refused::plain(11),
            GainError::NotFactor => Refused::plain(12),
        }
    }

    ghost has_number = { Prim.search rules };
}

// The one gain of a command, from 0 to 16,384, where 4,096 is unity: from the table for decibels, the nearest for a factor,
// 0 for off.
pub fn gain(command: Command) -> Result<i32, GainError>
    ensures { result ≡ command_gain command }
{
    match command {
        Command::Decibels(x) => decibels::decibels(x),
        Command::Factor(x) => factor::factor(x),
        Command::Off => Ok(0),
    }
}
