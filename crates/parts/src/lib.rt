// What C is returned of the two calls whose value goes to lent places: how many places.
#![tactic(auto)]

pub mod float_codec;
pub mod headers;
mod places;
