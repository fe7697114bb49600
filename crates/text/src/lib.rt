// What the desk writes as text: numbers in base ten, parts by name and index, and texts put one behind another.
#![tactic(auto)]

pub mod digits;
pub mod parts;
pub mod put;
