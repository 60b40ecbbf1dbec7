// Floats as samples, and samples as floats.
ghost use Rattle.std.specs.Prelude.{◌≡◌};
ghost use Rattle.floats.specs.Value.{float_sample, float_answer, to_float, floated_answer};
ghost use Rattle.floats.specs.Block.{float_block_answer};
ghost use Rattle.encoding.specs.Answers.{of_count, Returned};
ghost use Rattle.encoding.specs.Encode.{encode};
ghost use Rattle.parts.specs.Floated.{of_floated};
ghost use Rattle.answers.specs.Checks.{Done};
ghost use Rattle.capi.specs.FloatBlock.{floats_in_c};
ghost use Rattle.capi.specs.Floated.{float_after};

use encoding::code::{count, signed};
use floats::{FloatsError, OutOfRange};
use parts::float_codec::floated;

// A refusal's place is below this, 2 ^ 54.
const PLACES: usize = 1 << 54;

#[unsafe(no_mangle)]
pub extern "C" fn oeq_sample_from_float(value: f32) -> i64
    ensures { result ≡ encode (float_answer (float_sample value)) }
{
    signed(floats::sample_from_float(value))
}

// The float goes to the place; a refusal stores nothing.
fn store_float(answer: Result<f32, OutOfRange>, value: &mut f32)
    ensures { value.new ≡ float_after (floated_answer answer) value.old }
{
    if let Ok(x) = answer {
        *value = x;
    }
}

#[unsafe(no_mangle)]
pub extern "C" fn oeq_sample_to_float(sample: i32, value: &mut f32) -> i64
    ensures value { result ≡ encode (of_count (of_floated (floated_answer (to_float sample)))) }
    ensures value_after { value.new ≡ float_after (floated_answer (to_float sample)) value.old }
{
    let answer = floats::sample_to_float(sample);
    store_float(answer, value);
    count(floated(answer))
}

// The library's call, but for so many floats that no place of a bad one could be told.
fn placed(values: &[f32], samples: &mut [i32]) -> Result<usize, FloatsError>
    ensures { Done (floats_in_c values.now samples.old) result samples.new }
{
    if PLACES <= values.len() {
        return Err(FloatsError::WrongLength);
    }
    floats::samples_from_floats(values, samples)
}

#[unsafe(no_mangle)]
pub extern "C" fn oeq_samples_from_floats(values: &[f32], samples: &mut [i32]) -> i64
    ensures { Returned (λ a. of_count (float_block_answer a)) (floats_in_c values.now samples.old) result samples.new }
{
    count(placed(values, samples))
}
