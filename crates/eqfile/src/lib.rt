// What the program `eqwave` decides: the order of its checks, the plan of a run, bytes to samples.
// No public call has a `requires`.
#![tactic(auto)]

mod data;
mod front;
mod place;
mod plan;
mod refusal;
mod start;
mod turn;

pub use data::samples_from;
pub use front::carry;
pub use place::Place;
pub use plan::Plan;
pub use refusal::Refusal;
pub use start::begin;
pub use turn::Turn;
