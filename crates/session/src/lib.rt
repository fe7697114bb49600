// The calls of the desk. A session is a value: a call takes it and, where it may change, gives it back. `lent` has the same calls
// over a session whose arrays are lent one by one, so that none is copied. No call asks anything of its caller; each has one
// equation with the specification's machine, refused calls included; that of `figures`, which the machine does not have, is with its state.
// Each call stands in a crate of its own, with its contract; here they are gathered.
#![tactic(auto)]

use chain::arrays::Figures;
use observations::Observations;

pub mod answers;
pub mod calls;
pub mod lent;
pub mod state;

// Nothing (J = 0), or the observations of an accepted file with its struck steps, the figures that are made of them, the mean and the
// sweeps run since open or the last strike.
#[derive(Clone, Copy)]
pub struct Session {
    observations: Observations,
    figures: Figures,
    mean: [i64; 31],
    total: u64,
}
