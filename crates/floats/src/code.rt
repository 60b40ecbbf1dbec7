// A float's 32 bits to a sample, by ranges of the exponent's eight. Nothing here is a float, so a NaN is a number like others.
ghost use Rattle.std.specs.Prelude.{◌≡◌, ◌<◌, ◌≤◌, ◌^◌};
ghost use Rattle.std.specs.Float.{binary32};
ghost use Rattle.std.specs.Float.Ieee.{of_bits};
ghost use Rattle.floats.specs.Value.{float_sample, number_refusal};
ghost use Rattle.floats.specs.Exponent.{end_of, shifted, by_exponent};
ghost use Rattle.std.proofs.Common.{rules};

use answers::refused::{Numbered, Refused};
use answers::unit::{LEAST_SAMPLE, MOST_SAMPLE};

// 41: a NaN or an infinity, which is no sample.
#[derive(Clone, Copy, Debug, PartialEq, Eq)]
pub struct NotNumber;

impl Numbered for NotNumber {
    ghost refusal = { number_refusal };

    ghost has_number = { Prim.search rules };

    fn refused(self) -> Refused {
        Refused::plain(41)
    }
}

// The end of the sample range that a value of 1.0 or more, either way, is limited to.
fn end_of(negative: bool) -> i32
    ensures { result ≡ end_of negative }
{
    if negative { LEAST_SAMPLE } else { MOST_SAMPLE }
}

// The digits over 2 ^ k, to the nearest, a tie away from zero. Half of 2 ^ 24 - 1 rounds to 2 ^ 23, which is past the range one way.
fn shifted(negative: bool, digits: u32, k: u32) -> i32
    requires { (digits < 2 ^ 24) × (1 ≤ k) × (k ≤ 24) }
    ensures { result ≡ shifted negative digits k }
{
    let n = ((digits + (1 << (k - 1))) >> k) as i32;
    if negative { -n } else { n.min(MOST_SAMPLE) }
}

fn by_exponent(code: u32) -> Result<i32, NotNumber>
    ensures { result ≡ by_exponent code }
{
    let negative = 2147483648 <= code;
    let x = code / 8388608 % 256;
    match x {
        255 => Err(NotNumber),
        127..=254 => Ok(end_of(negative)),
        103..=126 => Ok(shifted(negative, 8388608 + code % 8388608, 127 - x)),
        _ => Ok(0),
    }
}

// The sample of the float with these bits.
pub fn sample_of_code(code: u32) -> Result<i32, NotNumber>
    ensures { result ≡ float_sample (of_bits binary32 code) }
{
    by_exponent(code)
}
