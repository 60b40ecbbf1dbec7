// The sample codec, one sample at a time.
ghost use Rattle.std.specs.Prelude.{◌≡◌, length};
ghost use Rattle.std.proofs.Common.{rules};
ghost use Rattle.answers.specs.Checks.{Done};
ghost use Rattle.samples.specs.Sample.{float_in, sample_in, from_bytes, to_bytes, sample_refusal, store_refusal};
ghost use Rattle.samples.specs.Format.{size_of};

use crate::code::{code_of, number};
use crate::format::Format;
use answers::range::within;
use answers::refused::{Numbered, Refused};
use answers::unit::{LEAST_SAMPLE, MOST_SAMPLE};
use fields::number::{Lowest, number_at, put_number};
use floats::{NotNumber, sample_of_code};

// 18: not two or three bytes.
#[derive(Clone, Copy, Debug, PartialEq, Eq)]
pub struct WrongLength;

impl Numbered for WrongLength {
    ghost refusal = { sample_refusal };

    ghost has_number = { Prim.search rules };

    fn refused(self) -> Refused {
        Refused::plain(18)
    }
}

// Why samples are not stored as bytes: one by `sample_to_bytes`, many by `samples_to_bytes`.
#[derive(Clone, Copy, Debug, PartialEq, Eq)]
pub enum StoreError {
    // 18: the buffer is not three bytes for each sample.
    WrongLength,
    // 19: a number is out of range.
    OutOfRange,
}

impl Numbered for StoreError {
    ghost refusal = { store_refusal };

    ghost has_number = { Prim.search rules };

    fn refused(self) -> Refused {
        match self {
            StoreError::WrongLength => Refused::plain(18),
            StoreError::OutOfRange => Refused::plain(19),
        }
    }
}

// The sample in four bytes, if their float is a number.
pub(crate) fn float_in(bytes: &[u8]) -> Result<i32, NotNumber>
    requires { length bytes.now ≡ 4 }
    ensures { result ≡ float_in bytes.now }
{
    sample_of_code(number_at::<Lowest, 4>(bytes, 0))
}

// The sample in the bytes of a format.
pub(crate) fn sample_in(bytes: &[u8], format: Format) -> i32
    requires { length bytes.now ≡ size_of format }
    ensures { result ≡ sample_in format bytes.now }
{
    match format {
        Format::Bits16 => number(256 * number_at::<Lowest, 2>(bytes, 0)),
        Format::Bits24 => number(number_at::<Lowest, 3>(bytes, 0)),
        // The block call judged each float before: the 0 is never taken there.
        Format::Float32 => float_in(bytes).unwrap_or(0),
    }
}

// The sample in two bytes, taken times 256, or in three.
pub fn sample_from_bytes(bytes: &[u8]) -> Result<i32, WrongLength>
    ensures { result ≡ from_bytes bytes.now }
{
    match bytes.len() {
        2 => Ok(sample_in(bytes, Format::Bits16)),
        3 => Ok(sample_in(bytes, Format::Bits24)),
        _ => Err(WrongLength),
    }
}

// Writes a sample's three bytes.
#[tactic(auto, using(answers::proofs::Branches::judging), unfolding(crate::specs::Sample::to_bytes))]
pub fn sample_to_bytes(sample: i32, buffer: &mut [u8]) -> Result<usize, StoreError>
    ensures { Done (to_bytes sample buffer.old) result buffer.new }
{
    if buffer.len() != 3 {
        return Err(StoreError::WrongLength);
    }
    if !within(LEAST_SAMPLE, MOST_SAMPLE, sample) {
        return Err(StoreError::OutOfRange);
    }
    put_number::<Lowest, 3>(buffer, 0, code_of(sample));
    Ok(3)
}
