// The numbers of standard input that are the cases of a program of readings, and places filled by them.
#![tactic(auto)]

pub mod fill;
pub mod words;
