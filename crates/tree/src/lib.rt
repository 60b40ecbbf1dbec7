// The published tree: definitions (specs/) and the facts of them (proofs/). No code stands here.
#![tactic(auto)]
