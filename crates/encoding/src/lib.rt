// The encoding of an answer as one 64-bit number. Helpers of the C interface: each `requires` that the number can hold the answer.
#![tactic(auto)]

pub mod code;
