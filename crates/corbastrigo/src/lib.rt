// The calls that a C or a Rust program links (document 01, "What a call hands back"). Each hands its arguments to the crate
// that does the work and turns that crate's answer into numbers; nothing else is done here.
//
// What holds of every call:
// - The answer is 0, or the number of document 01's refusal. No refusal has the number 0 (`answers`, proofs/NeverZero…), so 0 says "done".
// - What was found goes out through the lent numbers and slices. A refused call leaves each of them as it was.
// - Nothing is asked of the caller's data. A lent slice is a pointer and a length, in C two arguments; as in Rust no two lent
//   outputs may overlap, nor an output and an input.
#![tactic(auto)]

pub mod builds;
pub mod codes;
pub mod filters;
pub mod groups;
pub mod loads;
pub mod maps;
pub mod pages;
pub mod widths;
