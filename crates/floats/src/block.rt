// Floats to samples by the block. Everything is judged before anything is written.
ghost use Rattle.std.specs.Prelude.{◌≡◌, length, not, position};
ghost use Rattle.answers.specs.Checks.{Done};
ghost use Rattle.floats.specs.Block.{is_number, samples_of, from_floats, floats_refusal};
ghost use Rattle.std.proofs.Common.{rules};

use crate::single::sample_from_float;
use answers::refused::{Numbered, Refused};

// Why `samples_from_floats` refuses.
#[derive(Clone, Copy, Debug, PartialEq, Eq)]
pub enum FloatsError {
    // 6: the output's length is not the number of floats.
    WrongLength,
    // 41: a NaN or an infinity; the first one's place.
    BadFloat(usize),
}

impl Numbered for FloatsError {
    ghost refusal = { floats_refusal };

    ghost has_number = { Prim.search rules };

    fn refused(self) -> Refused {
        match self {
            FloatsError::WrongLength => Refused::plain(6),
            FloatsError::BadFloat(place) => Refused { number: 41, place },
        }
    }
}

// The place of the first float that is no number.
fn first_bad(values: &[f32]) -> Option<usize>
    ensures { result ≡ position (λ x. not (is_number x)) values.now }
{
    values
        .iter()
        .position(|value| sample_from_float(*value).is_err())
}

// By places: of what `iter_mut().zip(..)` wrote the library has no fact.
fn take_all(values: &[f32], samples: &mut [i32])
    requires { length samples.old ≡ length values.now }
    ensures { samples.new ≡ samples_of values.now }
{
    for (i, value) in values.iter().enumerate() {
        // Each float was judged before: the 0 is never taken.
        samples[i] = sample_from_float(*value).unwrap_or(0);
    }
}

// The samples of floats, one for each.
#[tactic(auto, using(answers::proofs::Branches::judging), unfolding(crate::specs::Block::from_floats))]
pub fn samples_from_floats(values: &[f32], samples: &mut [i32]) -> Result<usize, FloatsError>
    ensures { Done (from_floats values.now samples.old) result samples.new }
{
    if samples.len() != values.len() {
        return Err(FloatsError::WrongLength);
    }
    if let Some(place) = first_bad(values) {
        return Err(FloatsError::BadFloat(place));
    }
    take_all(values, samples);
    Ok(values.len())
}
