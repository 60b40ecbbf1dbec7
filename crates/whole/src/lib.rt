// Signed whole numbers: the leaves of the hot path. Each names its one answer by a definition of specs/.
// They are helpers for the crates above, not calls of the product.
#![tactic(auto)]

pub mod limiting;
pub mod products;
pub mod rounding;
