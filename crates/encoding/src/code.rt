// The encoding of answers, in one place: an accepted answer as itself, a refusal near INT64_MIN.
ghost use Rattle.std.specs.Prelude.{◌≡◌, ◌<◌, ◌^◌};
ghost use Rattle.answers.specs.Answer.{answered, refused};
ghost use Rattle.encoding.specs.Answers.{of_count};
ghost use Rattle.encoding.specs.Encode.{encode};
ghost use Rattle.encoding.specs.Parts.{CountFits, PlaceFits};

use answers::refused::Numbered;

fn refusal<E: Numbered>(error: E) -> i64
    requires { (E.refusal error).place < 2 ^ 54 }
    ensures { result ≡ encode (refused (E.refusal error).number (E.refusal error).place) }
{
    let told = error.refused();
    i64::MIN + (usize::from(told.number) + 256 * told.place) as i64
}

// An answer that is a count: a length, a delay, a number of samples or of bytes.
pub fn count<E: Numbered>(answer: Result<usize, E>) -> i64
    requires { CountFits E.refusal answer }
    ensures { result ≡ encode (of_count (answered E.refusal answer)) }
{
    answer.map_or_else(refusal, |n| n as i64)
}

// .. and one with a sign: a sample, a gain. Apart from `count`, since one form for both would take how a value is widened.
pub fn signed<E: Numbered>(answer: Result<i32, E>) -> i64
    requires { PlaceFits E.refusal answer }
    ensures { result ≡ encode (answered E.refusal answer) }
{
    answer.map_or_else(refusal, i64::from)
}
