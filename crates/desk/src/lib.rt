// The calls for C, and for whatever calls C: each has a plain answer of numbers. A session is nine arrays that the caller holds and
// lends; whatever stands in them is safe. `include/desk.h` declares them.
#![tactic(auto)]

pub mod exports;
pub mod sizes;
