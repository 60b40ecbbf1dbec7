// The calls of the programs of readings, each told as it is made.
#![tactic(auto)]

mod answer;
pub mod call;
pub mod lists;
