// The theorems of runs of calls: definitions (specs/) and the facts of them (proofs/). No code stands here.
#![tactic(auto)]
