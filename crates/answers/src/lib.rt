// The vocabulary under the calls: the unit's numbers by name, ranges, and what every call's error has. How a call's refusals
// are one list of checks stands in specs/; no code goes with it.
#![tactic(auto)]

pub mod range;
pub mod refused;
pub mod unit;
