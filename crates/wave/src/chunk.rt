// One chunk of the reader's walk.
ghost use Rattle.std.specs.Prelude.{◌≡◌, ◌<◌, ◌^◌};
ghost use Rattle.wave.specs.Walk.{extra_in, values, fmt_chunk, data_chunk, found_answer};
ghost use Rattle.wave.specs.Private.{FormatThere, met};

use crate::found::{Found, Sound};
use crate::refusal::Refusal;
use chunks::lowest::Chunk;
use chunks::place::HEADER_LENGTH;
use fields::number::{Lowest, number_at};
use wave_values::{LONG_FMT_LENGTH, channels_of, coding_of, known_length, right};

// The two bytes behind the sixteen of `fmt `, and 0 where there are none.
#[tactic(auto, unfolding(crate::specs::Walk::extra_in))]
fn extra_in(chunk: &Chunk) -> u32
    requires { FormatThere chunk.now.rest.now }
    ensures { result ≡ extra_in chunk.now.rest.now }
{
    if chunk.size() == LONG_FMT_LENGTH {
        number_at::<Lowest, 2>(chunk.rest, 24)
    } else {
        0
    }
}

// The values beside the format and the channels are judged with these.
#[tactic(auto, unfolding(crate::specs::Walk::values, crate::specs::Walk::judged))]
fn format_values(chunk: &Chunk) -> Result<Sound, Refusal>
    requires { FormatThere chunk.now.rest.now }
    ensures { met result ≡ values chunk.now.rest.now }
{
    let rest = chunk.rest;
    let tag = number_at::<Lowest, 2>(rest, 8);
    let count = number_at::<Lowest, 2>(rest, 10);
    let rate = number_at::<Lowest, 4>(rest, 12);
    let byterate = number_at::<Lowest, 4>(rest, 16);
    let block = number_at::<Lowest, 2>(rest, 20);
    let bits = number_at::<Lowest, 2>(rest, 22);
    let coding = coding_of(chunk.size(), extra_in(chunk), tag, bits);
    let format = coding.ok_or(Refusal::WrongFormat)?;
    let channels = channels_of(count).ok_or(Refusal::WrongFormat)?;
    if !right(format, channels, rate, byterate, block) {
        return Err(Refusal::WrongFormat);
    }
    Ok(Sound {
        rate,
        format,
        channels,
    })
}

// What a `fmt ` chunk tells, where `seen` is the one before it.
#[tactic(auto, using(crate::proofs::Chunks::known_long), unfolding(crate::specs::Walk::fmt_chunk, crate::specs::Walk::first))]
pub(crate) fn format_chunk(chunk: &Chunk, seen: Option<Sound>) -> Result<Sound, Refusal>
    ensures { met result ≡ fmt_chunk chunk.now.rest.now seen }
{
    if !known_length(chunk.size()) {
        return Err(Refusal::WrongFormat);
    }
    if !chunk.contained() {
        return Err(Refusal::CutOff);
    }
    match seen {
        None => format_values(chunk),
        Some(_) => Err(Refusal::WrongFormat),
    }
}

// The samples behind the header of a `data` chunk at a place.
#[tactic(auto, unfolding(crate::specs::Walk::data_chunk))]
pub(crate) fn data_chunk(size: u32, at: usize, seen: Option<Sound>) -> Result<Found, Refusal>
    requires { at < 2 ^ 63 }
    ensures { found_answer result ≡ data_chunk size at seen }
{
    let Sound {
        rate,
        format,
        channels,
    } = seen.ok_or(Refusal::NoFormat)?;
    Ok(Found {
        rate,
        format,
        channels,
        size,
        start: at + HEADER_LENGTH,
    })
}
