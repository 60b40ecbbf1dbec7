// One block of a run of `eqwave`: samples through the equaliser, and its outputs to bytes. The call has no `requires`.
#![tactic(auto)]

mod block;

pub use block::equalise;
