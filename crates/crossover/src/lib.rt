// Two feeds from one tree: the crossover call.
#![tactic(auto)]

mod both;
pub mod cross;
