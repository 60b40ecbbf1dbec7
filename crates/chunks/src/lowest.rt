// Chunks whose lengths stand lowest byte first.
ghost use Rattle.std.specs.Prelude.{◌≡◌, ◌+◌, ◌≤◌, ◌<◌, ◌^◌, length};
ghost use Rattle.std.proofs.lemmas.List.Edits.{sets};
ghost use Rattle.fields.specs.Bytes.{lowest};
ghost use Rattle.chunks.specs.Walk.{header_length, chunk_header, size_in, named, contained, next};

use crate::place::{HEADER_LENGTH, next_chunk};
use fields::names::put_name;
use fields::number::{Lowest, number_at, put_number};

// A chunk whose header is in the front: `rest` is the front from the chunk on.
#[derive(Clone, Copy)]
pub struct Chunk<'a> {
    pub rest: &'a [u8],
    pub ghost there: { header_length ≤ length rest.now },
}

impl<'a> Chunk<'a> {
    // The length that its header states.
    pub fn size(&self) -> u32
        ensures { result ≡ size_in lowest self.now.rest.now }
    {
        number_at::<Lowest, 4>(self.rest, 4)
    }

    // Whether it has a name.
    pub fn named(&self, name: &[u8; 4]) -> bool
        ensures { result ≡ named self.now.rest.now name.now }
    {
        fields::names::named(self.rest, 0, name)
    }

    // Whether its contents are all in the front.
    pub fn contained(&self) -> bool
        ensures { result ≡ contained lowest self.now.rest.now }
    {
        HEADER_LENGTH + self.size() as usize <= self.rest.len()
    }

    // Where the chunk behind it starts, if it starts at a place.
    pub fn next_after(&self, at: usize) -> usize
        requires { at < 2 ^ 63 }
        ensures { result ≡ next at (size_in lowest self.now.rest.now) }
    {
        next_chunk(at, self.size())
    }
}

// Writes a chunk's header.
pub fn put_chunk(buffer: &mut [u8], at: usize, name: &[u8; 4], size: u32)
    requires { at + header_length ≤ length buffer.old }
    ensures { buffer.new ≡ sets buffer.old at (chunk_header lowest name.now size) }
{
    put_name(buffer, at, name);
    put_number::<Lowest, 4>(buffer, at + 4, size);
}
