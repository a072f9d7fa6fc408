// The static library: the calls of `corbastrigo` under their names in C. A library of Rattle is not linked by C, and a static library is
// not built upon, so that the calls stand in the one and their exports in the other. What holds of every call is told in `corbastrigo`.
#![tactic(auto)]

pub mod builds;
pub mod codes;
pub mod filters;
pub mod groups;
pub mod loads;
pub mod maps;
pub mod pages;
pub mod widths;
