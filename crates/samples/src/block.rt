// The sample codec by the block. Everything is judged before anything is written.
ghost use Rattle.std.specs.Prelude.{◌≡◌, true, not, ◌*◌, ◌/◌, length, position};
ghost use Rattle.std.proofs.Common.{rules};
ghost use Rattle.answers.specs.Checks.{Done};
ghost use Rattle.answers.specs.Range.{all_within};
ghost use Rattle.answers.specs.Unit.{least_sample, most_sample};
ghost use Rattle.samples.specs.Sample.{is_sample_in};
ghost use Rattle.samples.specs.Samples.{pieces_of, samples_of, block_from, bytes_of, block_to, take_refusal};
ghost use Rattle.samples.specs.Format.{size_of};
ghost use Rattle.samples.specs.declared.format.Format.TheVariants.{Float32};

use crate::code::code_of;
use crate::format::Format;
use crate::single::{StoreError, float_in, sample_in};
use answers::range::first_outside;
use answers::refused::{Numbered, Refused};
use answers::unit::{LEAST_SAMPLE, MOST_SAMPLE};
use fields::number::{Lowest, put_number};

// Why `bytes_to_samples` refuses.
#[derive(Clone, Copy, Debug, PartialEq, Eq)]
pub enum TakeError {
    // 18: the bytes are not whole samples.
    PartSample,
    // 6: the output's length is not the number of samples.
    WrongLength,
    // 41: a float that is a NaN or an infinity; the first one's place, in samples.
    NotNumber(usize),
}

impl Numbered for TakeError {
    ghost refusal = { take_refusal };

    ghost has_number = { Prim.search rules };

    fn refused(self) -> Refused {
        match self {
            TakeError::PartSample => Refused::plain(18),
            TakeError::WrongLength => Refused::plain(6),
            TakeError::NotNumber(place) => Refused { number: 41, place },
        }
    }
}

// The place of the first float that is no number.
fn first_bad_float(bytes: &[u8]) -> Option<usize>
    ensures { result ≡ position (λ s. not (is_sample_in Float32 s)) (pieces_of (length bytes.now / 4) 4 bytes.now) }
{
    bytes
        .chunks_exact(4)
        .position(|float| float_in(float).is_err())
}

// The place of the first sample that is no number: only a float can be none.
fn first_bad(bytes: &[u8], format: Format) -> Option<usize>
    ensures { result ≡ position (λ s. not (is_sample_in format s)) (pieces_of (length bytes.now / size_of format) (size_of format) bytes.now) }
{
    match format {
        Format::Bits16 | Format::Bits24 => None,
        Format::Float32 => first_bad_float(bytes),
    }
}

// By places: of what `iter_mut().zip(..)` wrote the library has no fact.
fn take_all(bytes: &[u8], format: Format, samples: &mut [i32])
    requires { length bytes.now ≡ size_of format * length samples.old }
    ensures { samples.new ≡ samples_of (length samples.old) format bytes.now }
{
    for (i, piece) in bytes.chunks_exact(format.bytes() as usize).enumerate() {
        samples[i] = sample_in(piece, format);
    }
}

// The samples in bytes of a format, one after the other.
#[tactic(auto, using(answers::proofs::Branches::judging, fields::proofs::ByTest::dividing), unfolding(crate::specs::Samples::block_from))]
pub fn bytes_to_samples(
    bytes: &[u8],
    format: Format,
    samples: &mut [i32],
) -> Result<usize, TakeError>
    ensures { Done (block_from bytes.now format samples.old) result samples.new }
{
    let size = format.bytes() as usize;
    if bytes.len() % size != 0 {
        return Err(TakeError::PartSample);
    }
    if samples.len() != bytes.len() / size {
        return Err(TakeError::WrongLength);
    }
    if let Some(place) = first_bad(bytes, format) {
        return Err(TakeError::NotNumber(place));
    }
    take_all(bytes, format, samples);
    Ok(samples.len())
}

// By places: of what `chunks_exact_mut` wrote the library has no fact.
fn store_all(samples: &[i32], buffer: &mut [u8])
    requires { (length buffer.old ≡ 3 * length samples.now) × (all_within least_sample most_sample samples.now ≡ true) }
    ensures { buffer.new ≡ bytes_of samples.now }
{
    for (i, sample) in samples.iter().enumerate() {
        put_number::<Lowest, 3>(buffer, 3 * i, code_of(*sample));
    }
}

// Writes the three bytes of each sample, one after the other.
#[tactic(auto, using(answers::proofs::Branches::judging), unfolding(crate::specs::Samples::block_to))]
pub fn samples_to_bytes(samples: &[i32], buffer: &mut [u8]) -> Result<usize, StoreError>
    ensures { Done (block_to samples.now buffer.old) result buffer.new }
{
    if buffer.len() != 3 * samples.len() {
        return Err(StoreError::WrongLength);
    }
    if first_outside(LEAST_SAMPLE, MOST_SAMPLE, samples).is_some() {
        return Err(StoreError::OutOfRange);
    }
    store_all(samples, buffer);
    Ok(buffer.len())
}
