// What a session holds: the figures of a file, a mean and the sweeps run since open or the last strike, or nothing. `specs/State.antt`
// says which state of the specification's machine it stands for; the code tests it.
#![tactic(auto)]

pub mod bounds;
pub mod passing;
