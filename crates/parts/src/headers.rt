// The answer of the WAVE header's reader.
ghost use Rattle.std.specs.Prelude.{◌≡◌};
ghost use Rattle.answers.specs.Answer.{answered};
ghost use Rattle.wave.specs.Walk.{refusal_of, found_answer};
ghost use Rattle.parts.specs.Found.{of_found};

use crate::places::places;
use wave::{Found, Refusal};

// What was found goes to the five lent places.
pub fn found(answer: Result<Found, Refusal>) -> Result<usize, Refusal>
    ensures { answered refusal_of result ≡ of_found (found_answer answer) }
{
    places::<5, _, _>(answer)
}
