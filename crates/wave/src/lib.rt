// The reader of WAVE headers, in two steps: where the samples are, and whether their length is whole frames.
// No public call has a `requires`: what it cannot take it refuses, and then it changes nothing that is lent.
#![tactic(auto)]

mod chunk;
mod finder;
mod found;
mod reader;
mod refusal;

pub use finder::find;
pub use found::Found;
pub use reader::read;
pub use refusal::Refusal;
