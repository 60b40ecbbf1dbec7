// The theorems of the two feeds over runs of plain and crossover calls: definitions (specs/) and the facts of them (proofs/). No code stands here.
#![tactic(auto)]
