// The first step of the reader: the names, and the walk to the `data` chunk.
ghost use Rattle.std.specs.Prelude.{◌≡◌, length};
ghost use Rattle.answers.specs.Answer.{refused};
ghost use Rattle.fields.specs.Bytes.{lowest};
ghost use Rattle.chunks.specs.Walk.{form_length, walk};
ghost use Rattle.wave.specs.Walk.{nothing, chunk, find_of, found_answer};

use crate::chunk::{data_chunk, format_chunk};
use crate::found::Found;
use crate::refusal::Refusal;
use answers::unit::FRONT_LENGTH;
use chunks::form::{FORM_LENGTH, is_form};
use chunks::lowest::Chunk;
use chunks::place::header_in;

// A `while`, and no iterator: each chunk states where the next one starts.
fn walk(front: &[u8]) -> Result<Found, Refusal>
    ensures { found_answer result ≡ walk lowest (refused 24 0) chunk (length front.now) front.now form_length nothing }
{
    let mut at = FORM_LENGTH;
    let mut seen = None;
    while header_in(front, at) {
        let chunk = Chunk { rest: &front[at..] };
        if chunk.named(b"fmt ") {
            seen = Some(format_chunk(&chunk, seen)?);
        } else if chunk.named(b"data") {
            return data_chunk(chunk.size(), at, seen);
        }
        at = chunk.next_after(at);
    }
    Err(Refusal::CutOff)
}

// Finds the samples of a file by its front: the first 4,096 bytes, or the whole file if shorter.
pub fn find(front: &[u8]) -> Result<Found, Refusal>
    ensures { found_answer result ≡ find_of front.now }
{
    let part = &front[..front.len().min(FRONT_LENGTH)];
    if !is_form(part, b"RIFF", b"WAVE") {
        return Err(Refusal::NotWave);
    }
    walk(part)
}
