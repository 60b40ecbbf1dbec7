// A whole run of the program: its definition (specs/) and the facts of it (proofs/). No code stands here.
#![tactic(auto)]
