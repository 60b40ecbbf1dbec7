// The calls: line memory, prepare, block.
#![tactic(auto)]

pub mod block;
pub mod counts;
pub mod input;
mod layout;
pub mod memory;
mod numbers;
pub mod pass;
