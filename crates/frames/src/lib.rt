// Blocks of frames: how many there are, and one side taken out. Helpers of the calls: each `requires` what a call has judged.
#![tactic(auto)]

pub mod count;
pub mod sides;
