// The answer of a sample as a float.
ghost use Rattle.std.specs.Prelude.{◌≡◌};
ghost use Rattle.answers.specs.Answer.{answered};
ghost use Rattle.floats.specs.Value.{range_refusal, floated_answer};
ghost use Rattle.parts.specs.Floated.{of_floated};

use crate::places::places;
use floats::OutOfRange;

// The float goes to the one lent place.
pub fn floated(answer: Result<f32, OutOfRange>) -> Result<usize, OutOfRange>
    ensures { answered range_refusal result ≡ of_floated (floated_answer answer) }
{
    places::<1, _, _>(answer)
}
