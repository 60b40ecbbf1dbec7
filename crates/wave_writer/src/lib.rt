// The writer of WAVE headers, and what it writes read back.
// The public call has no `requires`: what it cannot take it refuses, and then the buffer is as before.
#![tactic(auto)]

mod writer;

pub use writer::{WriteError, write};
