// Answers as numbers (document 01, "What a call hands back"), for callers in C and Rust: 0 or the refusal's number, and what was found
// through lent numbers, each of which a refused call leaves as it was. No function stands here: the crates `answer_…` have those that hand
// out an answer, by what is answered, so that a wrong one is refused by a small crate.

#![tactic(auto)]
