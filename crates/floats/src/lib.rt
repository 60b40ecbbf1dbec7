// Floats as samples and samples as floats, one at a time and by the block. No public call has a `requires`.
#![tactic(auto)]

mod block;
mod code;
mod single;

pub use block::{FloatsError, samples_from_floats};
pub use code::{NotNumber, sample_of_code};
pub use single::{OutOfRange, sample_from_float, sample_to_float};
