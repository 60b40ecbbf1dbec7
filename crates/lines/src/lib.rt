// The machine: a row of samples through the lines of a memory, one behind the other. It knows no gain.
#![tactic(auto)]

pub mod cascade;
pub mod row;
