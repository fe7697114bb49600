// The arithmetic that every call rests on, in 64 bits: residues of a mean, and their test. Each equals the specification's definition
// of the same name in `definitions`, and no sum wraps where the figures fit (`specs/Fitting.antt`).
#![tactic(auto)]

pub mod arrays;
pub mod judge;
pub mod residues;
