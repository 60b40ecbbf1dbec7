// One float to a sample, and one sample to a float.
ghost use Rattle.std.specs.Prelude.{◌≡◌};
ghost use Rattle.floats.specs.Value.{float_sample, to_float, range_refusal};
ghost use Rattle.std.proofs.Common.{rules};

use crate::code::{NotNumber, sample_of_code};
use answers::range::within;
use answers::refused::{Numbered, Refused};
use answers::unit::{LEAST_SAMPLE, MOST_SAMPLE};

// 19: the number is outside the sample range.
#[derive(Clone, Copy, Debug, PartialEq, Eq)]
pub struct OutOfRange;

impl Numbered for OutOfRange {
    ghost refusal = { range_refusal };

    ghost has_number = { Prim.search rules };

    fn refused(self) -> Refused {
        Refused::plain(19)
    }
}

// The sample of a float. A NaN has no bits to be asked for.
pub fn sample_from_float(value: f32) -> Result<i32, NotNumber>
    ensures { result ≡ float_sample value }
{
    if value.is_nan() {
        return Err(NotNumber);
    }
    sample_of_code(f32::to_bits(value))
}

// The float of a sample. Both steps are exact: 24 bits fit a float, and so does their quotient by a power of two.
pub fn sample_to_float(sample: i32) -> Result<f32, OutOfRange>
    ensures { result ≡ to_float sample }
{
    if !within(LEAST_SAMPLE, MOST_SAMPLE, sample) {
        return Err(OutOfRange);
    }
    Ok(sample as f32 / 8388608.0)
}
