#![tactic(auto)]

// The rules of docs/RULES.md as definitions (specs/) and their laws (proofs/). There is no code here: the crates above prove theirs against these.
