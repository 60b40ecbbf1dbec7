// Samples and their bytes, one sample at a time and by the block.
// No public call has a `requires`: what it cannot take it refuses, and then it changes nothing that is lent.
#![tactic(auto)]

mod block;
mod channels;
mod code;
mod format;
mod single;

pub use block::{TakeError, bytes_to_samples, samples_to_bytes};
pub use channels::Channels;
pub use format::Format;
pub use single::{StoreError, WrongLength, sample_from_bytes, sample_to_bytes};
