// Document 01's examples of check and walk, proved together as one list: proofs/Examples. No code stands here; the list has a crate of
// its own because it takes the checker a while to compute.

#![tactic(auto)]
