// Numbers and names of bytes at a place, lowest byte first or highest first.
// Helpers for the crates above: each `requires` that its bytes are there.
#![tactic(auto)]

pub mod names;
pub mod number;
