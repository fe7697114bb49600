// What 64 bits do not do by themselves: division rounded down, numbers brought inside limits, numbers of two words.
#![tactic(auto)]

pub mod floor;
pub mod limits;
pub mod wide;
