// The right values of a `fmt ` chunk, in one place. No call has a `requires`.
#![tactic(auto, unfolding(crate::specs::Values::known_length, crate::specs::Values::whole_coding, crate::specs::Values::float_coding, crate::specs::Values::coding_of, crate::specs::Values::channels_of, crate::specs::Values::known_rate, crate::specs::Values::right))]

ghost use Rattle.std.specs.Prelude.{◌≡◌, ◌<◌};
ghost use Rattle.samples.specs.Channels.{count_of};
ghost use Rattle.wave_values.specs.Values.{known_length, frame_size, whole_coding, float_coding, coding_of, channels_of, known_rate, right};

use samples::{Channels, Format};

// The length of `fmt `, as it is written.
pub const FMT_LENGTH: u32 = 16;
// .. and with two bytes more, as float files may have it.
pub const LONG_FMT_LENGTH: u32 = 18;

// Whether `fmt ` may have a length.
pub fn known_length(size: u32) -> bool
    ensures { result ≡ known_length size }
{
    matches!(size, FMT_LENGTH | LONG_FMT_LENGTH)
}

// The format of whole numbers, of so many bits, in a `fmt ` of a length.
fn whole_coding(size: u32, bits: u32) -> Option<Format>
    ensures { result ≡ whole_coding size bits }
{
    match (size, bits) {
        (FMT_LENGTH, 16) => Some(Format::Bits16),
        (FMT_LENGTH, 24) => Some(Format::Bits24),
        _ => None,
    }
}

// The format of floats, of so many bits, in a `fmt ` whose bytes behind the sixteen are `extra`.
fn float_coding(extra: u32, bits: u32) -> Option<Format>
    ensures { result ≡ float_coding extra bits }
{
    (bits == 32 && extra == 0).then_some(Format::Float32)
}

// The format that a `fmt ` tells.
pub fn coding_of(size: u32, extra: u32, tag: u32, bits: u32) -> Option<Format>
    ensures { result ≡ coding_of size extra tag bits }
{
    match tag {
        1 => whole_coding(size, bits),
        3 => float_coding(extra, bits),
        _ => None,
    }
}

// The channels that a count tells. No `TryFrom`: its error would say no more than `None`.
pub fn channels_of(count: u32) -> Option<Channels>
    ensures { result ≡ channels_of count }
{
    match count {
        1 => Some(Channels::One),
        2 => Some(Channels::Two),
        _ => None,
    }
}

// The bytes of one frame: a sample of each channel.
pub fn frame_size(channels: Channels, format: Format) -> u32
    ensures { (result ≡ frame_size (count_of channels) format) × (0 < result) × (result < 9) }
{
    channels.count() * format.bytes()
}

// Whether files may have a rate.
pub fn known_rate(rate: u32) -> bool
    ensures { result ≡ known_rate rate }
{
    matches!(rate, 44100 | 48000)
}

// Whether a `fmt `'s other values are right for its format and channels.
pub fn right(format: Format, channels: Channels, rate: u32, byterate: u32, block: u32) -> bool
    ensures { result ≡ right format channels rate byterate block }
{
    let size = frame_size(channels, format);
    known_rate(rate) && block == size && byterate == rate * size
}
