// Document 01's three demands as statements in plain numbers (specs/), and how each follows from what the exported calls promise
// (proofs/). The functions that a user would write, and whose contracts these are, are the crate `demands`. There is no code here: a
// statement that the promises no longer give is refused by its law, in a few seconds.

#![tactic(auto)]
