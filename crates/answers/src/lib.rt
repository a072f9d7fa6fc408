// What the exported calls promise of the numbers that they hand out, as definitions and laws: that no refusal is 0, so that 0 says "done";
// and demand 3 and what Bitcoin Core answers, carried over from the crates that do the work. No function stands here.

#![tactic(auto)]
