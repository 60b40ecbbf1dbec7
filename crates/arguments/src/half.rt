// One argument to its gain: the gain command's answer for that many half decibels.
ghost use Rattle.std.specs.Prelude.{◌≡◌};
ghost use Rattle.arguments.specs.Argument.{place_of, argument_of};

use crate::digits::digits_of;
use gain::{Command, gain, half_decibel};

// The place of a half decibel in the gain table: n half decibels stand at n + 24.
fn place_of(text: &[u8]) -> Option<u8>
    ensures { result ≡ place_of text.now }
{
    match text.strip_prefix(b"-") {
        Some(digits) => Some(24 - digits_of(digits)?),
        None => Some(24 + digits_of(text)?),
    }
}

// The gain of an argument's bytes.
pub fn gain_of(text: &[u8]) -> Option<i32>
    ensures { result ≡ argument_of text.now }
{
    let place = place_of(text)?;
    gain(Command::Decibels(half_decibel(place))).ok()
}
