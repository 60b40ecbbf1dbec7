// An answer as it is told: a count, or a refusal by its number and its place.
ghost use Rattle.std.specs.Prelude.{◌≡◌};
ghost use Rattle.answers.specs.Answer.{answered};
ghost use Rattle.printing.specs.Told.{numbered};

use answers::refused::{Numbered, Refused};

pub(crate) fn answer<E: Numbered>(answer: Result<usize, E>) -> Result<usize, Refused>
    ensures { numbered result ≡ answered E.refusal answer }
{
    answer.map_err(E::refused)
}
