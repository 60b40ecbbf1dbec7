// The sample codec.
ghost use Rattle.std.specs.Prelude.{◌≡◌};
ghost use Rattle.samples.specs.Sample.{from_bytes, to_bytes, sample_answer, put_answer};
ghost use Rattle.encoding.specs.Answers.{of_count, Returned};
ghost use Rattle.encoding.specs.Encode.{encode};

use encoding::code::{count, signed};

#[unsafe(no_mangle)]
pub extern "C" fn oeq_sample_from_bytes(bytes: &[u8]) -> i64
    ensures { result ≡ encode (sample_answer (from_bytes bytes.now)) }
{
    signed(samples::sample_from_bytes(bytes))
}

#[unsafe(no_mangle)]
pub extern "C" fn oeq_sample_to_bytes(sample: i32, buffer: &mut [u8]) -> i64
    ensures { Returned (λ a. of_count (put_answer a)) (to_bytes sample buffer.old) result buffer.new }
{
    count(samples::sample_to_bytes(sample, buffer))
}
