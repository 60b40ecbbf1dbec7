// The arguments, one after the other, lowest band first: how many were taken, or none where one is no half decibel or has no
// place for its gain, which is refused with 30.
// The count stays beside the gains: the promise (`AllTaken`, `all_of`) tells the gains after a refusal too, and an Option of an array would have none there.
ghost use Rattle.std.specs.Prelude.{◌≡◌};
ghost use Rattle.arguments.specs.Arguments.{another, front_wanted};

use crate::half::gain_of;
use answers::unit::FRONT_LENGTH;

// The program's band count: so many arguments.
pub const BANDS: usize = 8;

// Takes one more argument: its gain goes to the next place of the gains.
pub fn another(before: Option<usize>, text: &[u8], gains: &mut [i32]) -> Option<usize>
    ensures { (result, gains.new) ≡ another before text.now gains.old }
{
    let n = before?;
    if gains.len() <= n {
        return None;
    }
    gains[n] = gain_of(text)?;
    Some(n + 1)
}

// How many bytes of the front are to be read: none after refused arguments.
pub fn front_wanted(arguments: Option<usize>) -> usize
    ensures { result ≡ front_wanted arguments }
{
    if arguments == Some(BANDS) {
        FRONT_LENGTH
    } else {
        0
    }
}
