// The arguments of `eqwave`: text to gains. No public call has a `requires`.
#![tactic(auto)]

mod digits;
mod given;
mod half;
mod taking;

pub use given::take;
pub use half::gain_of;
pub use taking::{BANDS, another, front_wanted};
