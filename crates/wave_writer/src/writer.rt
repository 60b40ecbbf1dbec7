// The header writer: 44 bytes before 24-bit samples.
ghost use Rattle.std.specs.Prelude.{◌≡◌, ◌≤◌, false, pos, length, MatchOption};
ghost use Rattle.std.proofs.Common.{rules};
ghost use Rattle.std.proofs.lemmas.List.Edits.{sets};
ghost use Rattle.answers.specs.Checks.{Done};
ghost use Rattle.answers.specs.Range.{within};
ghost use Rattle.answers.specs.Unit.{fewest_channels, most_channels, largest_data};
ghost use Rattle.samples.specs.Channels.{count_of};
ghost use Rattle.wave_writer.specs.Header.{header_bytes, riff_size, header, fmt_contents, write_of, write_refusal};

use answers::refused::{Numbered, Refused};
use answers::unit::LARGEST_DATA;
use chunks::lowest::put_chunk;
use chunks::place::padding;
use fields::names::put_name;
use fields::number::{Lowest, put_number};
use samples::{Channels, Format};
use wave_values::{FMT_LENGTH, channels_of, frame_size, known_rate};

// The bytes of the header.
const HEADER_BYTES: usize = 44;

// Why `write` refuses.
#[derive(Clone, Copy, Debug, PartialEq, Eq)]
pub enum WriteError {
    // 27: the buffer is not 44 bytes.
    WrongBuffer,
    // 28: the rate is neither of the two.
    WrongRate,
    // 9: the channel count is neither 1 nor 2.
    WrongChannels,
    // 26: the length is not whole frames, or above `LARGEST_DATA`.
    WrongLength,
}

impl Numbered for WriteError {
    ghost refusal = { write_refusal };

    ghost has_number = { Prim.search rules };

    fn refused(self) -> Refused {
        Refused::plain(match self {
            WriteError::WrongBuffer => 27,
            WriteError::WrongRate => 28,
            WriteError::WrongChannels => 9,
            WriteError::WrongLength => 26,
        })
    }
}

// The channels of a count that may be any number.
fn sides_of(count: i32) -> Option<Channels>
    ensures { MatchOption result (within fewest_channels most_channels count ≡ false) (λ channels. count ≡ pos (count_of channels)) }
{
    channels_of(u32::try_from(count).ok()?)
}

// The contents of `fmt ` for 24 bits, in their place.
fn put_format(buffer: &mut [u8], rate: u32, channels: Channels)
    requires { (36 ≤ length buffer.old) × (rate ≤ 48000) }
    ensures { buffer.new ≡ sets buffer.old 20 (fmt_contents rate (count_of channels)) }
{
    let frame = frame_size(channels, Format::Bits24);
    put_number::<Lowest, 2>(buffer, 20, 1);
    put_number::<Lowest, 2>(buffer, 22, channels.count());
    put_number::<Lowest, 4>(buffer, 24, rate);
    put_number::<Lowest, 4>(buffer, 28, rate * frame);
    put_number::<Lowest, 2>(buffer, 32, frame);
    put_number::<Lowest, 2>(buffer, 34, Format::Bits24.bits());
}

// The RIFF length: all that follows it in the file.
fn riff_size(size: u32) -> u32
    requires { size ≤ largest_data }
    ensures { result ≡ riff_size size }
{
    size + padding(size as usize) as u32 + 36
}

fn put_header(buffer: &mut [u8], rate: u32, size: u32, channels: Channels)
    requires { (length buffer.old ≡ header_bytes) × (rate ≤ 48000) × (size ≤ largest_data) }
    ensures { buffer.new ≡ header rate size (count_of channels) }
{
    put_chunk(buffer, 0, b"RIFF", riff_size(size));
    put_name(buffer, 8, b"WAVE");
    put_chunk(buffer, 12, b"fmt ", FMT_LENGTH);
    put_format(buffer, rate, channels);
    put_chunk(buffer, 36, b"data", size);
}

// Writes the header of `size` bytes of 24-bit samples at a rate, in one or two channels.
#[tactic(auto, using(answers::proofs::Branches::judging, fields::proofs::ByTest::dividing), unfolding(crate::specs::Header::write_of))]
pub fn write(buffer: &mut [u8], rate: u32, size: u32, channels: i32) -> Result<usize, WriteError>
    ensures { Done (write_of buffer.old rate size channels) result buffer.new }
{
    if buffer.len() != HEADER_BYTES {
        return Err(WriteError::WrongBuffer);
    }
    if !known_rate(rate) {
        return Err(WriteError::WrongRate);
    }
    let Some(sides) = sides_of(channels) else {
        return Err(WriteError::WrongChannels);
    };
    if size % frame_size(sides, Format::Bits24) != 0 || LARGEST_DATA < size {
        return Err(WriteError::WrongLength);
    }
    put_header(buffer, rate, size, sides);
    Ok(HEADER_BYTES)
}
