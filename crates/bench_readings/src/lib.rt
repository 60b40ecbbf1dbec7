// The bench readings marked P (rule 14.2): one table (specs/) and one proof over it (proofs/). No code stands here.
#![tactic(auto)]
