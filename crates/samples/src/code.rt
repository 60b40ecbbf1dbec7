// A sample's code: the 24 bits of its two's complement, as a number below 2 ^ 24. No type has 24 bits, so no method of the library converts it.
ghost use Rattle.std.specs.Prelude.{◌≡◌, ◌<◌, ◌^◌, true};
ghost use Rattle.answers.specs.Range.{within};
ghost use Rattle.answers.specs.Unit.{least_sample, most_sample};
ghost use Rattle.samples.specs.Sample.{number_of, code_of};

// The number that a code stands for.
pub(crate) fn number(code: u32) -> i32
    requires { code < 2 ^ 24 }
    ensures { result ≡ number_of 24 code }
{
    let n = code as i32;
    if code < 8388608 { n } else { n - 16777216 }
}

// The code of a number in the range.
pub(crate) fn code_of(sample: i32) -> u32
    requires { within least_sample most_sample sample ≡ true }
    ensures { (result ≡ code_of sample) × (result < 2 ^ 24) }
{
    if sample < 0 {
        (sample + 16777216) as u32
    } else {
        sample as u32
    }
}
