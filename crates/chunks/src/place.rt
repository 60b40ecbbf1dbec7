// Where chunks stand in a front.
ghost use Rattle.std.specs.Prelude.{◌≡◌, ◌+◌, ◌<◌, ◌^◌, leb, length};
ghost use Rattle.chunks.specs.Walk.{header_length, padding, next};

// A chunk's header: its name and the length of its contents.
pub const HEADER_LENGTH: usize = 8;

// How many pad bytes follow contents of a length, which it does not count: one if it is odd.
pub fn padding(size: usize) -> usize
    ensures { result ≡ padding size }
{
    size % 2
}

// Where the next chunk starts. In 64 bits no stated length wraps.
pub fn next_chunk(at: usize, size: u32) -> usize
    requires { at < 2 ^ 63 }
    ensures { result ≡ next at size }
{
    let size = size as usize;
    at + HEADER_LENGTH + (size + padding(size))
}

// Whether a chunk's header is wholly in the front.
pub fn header_in(front: &[u8], at: usize) -> bool
    ensures { result ≡ leb (at + header_length) (length front.now) }
{
    HEADER_LENGTH <= front.len().saturating_sub(at)
}
