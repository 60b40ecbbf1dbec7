// A block's samples through the lines of each side and weighed. Helpers of the calls: each `requires` what a call has judged.
#![tactic(auto)]

pub mod run;
