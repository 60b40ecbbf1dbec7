// What the reader's walk comes by.
use samples::{Channels, Format};

// The `fmt ` that the walk has met.
#[derive(Clone, Copy)]
pub struct Sound {
    pub rate: u32,
    pub format: Format,
    pub channels: Channels,
}

// The samples of a file: `size` bytes of them start at `start`. No `Sound` within: the theorems of the reader speak of these five fields.
#[derive(Clone, Copy, Debug, PartialEq, Eq)]
pub struct Found {
    pub rate: u32,
    pub format: Format,
    pub channels: Channels,
    pub size: u32,
    pub start: usize,
}
