// The gain commands: three exports, since a C enum with floats has no form here.
ghost use Rattle.std.specs.Prelude.{◌≡◌};
ghost use Rattle.gain.specs.Answer.{answer_of};
ghost use Rattle.gain.specs.Promise.{command_gain};
ghost use Rattle.gain.specs.declared.Command.TheVariants as command;
ghost use Rattle.encoding.specs.Encode.{encode};

use encoding::code::signed;
use gain::Command;

fn gain_code(command: Command) -> i64
    ensures { result ≡ encode (answer_of (command_gain command)) }
{
    signed(gain::gain(command))
}

#[unsafe(no_mangle)]
pub extern "C" fn oeq_gain_decibels(decibels: f32) -> i64
    ensures { result ≡ encode (answer_of (command_gain (command.Decibels decibels))) }
{
    gain_code(Command::Decibels(decibels))
}

#[unsafe(no_mangle)]
pub extern "C" fn oeq_gain_factor(factor: f32) -> i64
    ensures { result ≡ encode (answer_of (command_gain (command.Factor factor))) }
{
    gain_code(Command::Factor(factor))
}

#[unsafe(no_mangle)]
pub extern "C" fn oeq_gain_off() -> i64
    ensures { result ≡ encode (answer_of (command_gain command.Off)) }
{
    gain_code(Command::Off)
}
