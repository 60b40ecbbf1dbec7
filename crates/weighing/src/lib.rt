// From the aligned rows of the lines to outputs: gains enter here alone.
#![tactic(auto)]

pub mod rows;
pub mod weights;
