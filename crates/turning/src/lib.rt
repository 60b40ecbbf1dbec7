// One turn of a run of `eqwave`: its bytes are read, equalised, and handed over. Helpers of the program alone: each asks for a run that stands
// where its turns leave it, so that nothing else is handed to standard output.
#![tactic(auto)]

pub mod buffers;
pub mod input;
pub mod output;
pub mod run;
pub mod turn;
