// The walk over chunks, for any file format: where a chunk's header is in the front, the length that it states, and where the next chunk starts.
// Helpers for the crates above: each `requires` that its bytes are there.
#![tactic(auto)]

pub mod form;
pub mod lowest;
pub mod place;
