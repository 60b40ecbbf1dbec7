// One side's samples through its lines and weighed, row after row. Helpers of the calls: each `requires` what a call has judged.
#![tactic(auto)]

pub mod run;
