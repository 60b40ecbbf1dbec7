// How many lent places a value went to.
ghost use Rattle.std.specs.Prelude.{◌≡◌};
ghost use Rattle.answers.specs.Answer.{answered};
ghost use Rattle.parts.specs.Places.{of_places};

use answers::refused::Numbered;

// A value becomes the number of its places, and a refusal stays.
pub(crate) fn places<const N: usize, T: Drop, E: Numbered>(answer: Result<T, E>) -> Result<usize, E>
    ensures { answered E.refusal result ≡ of_places N (answered E.refusal answer) }
{
    answer?;
    Ok(N)
}
