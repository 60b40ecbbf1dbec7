// One line of the memory: a ring, its taps, the low-pass and the aligned sample.
#![tactic(auto)]

pub mod line;
mod low;
