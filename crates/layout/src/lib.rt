// The file and the mean record as an insurer sends them: where their fields stand, which of them are refused, and why.
#![tactic(auto)]

pub mod checks;
pub mod places;
pub mod refusals;
