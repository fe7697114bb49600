// One step, one sweep, and the sweeps of a call, in 64 bits. Each equals the specification's definition of the same name in
// `definitions`, and no sum wraps where the figures fit (`Fitting` of `chain`).
#![tactic(auto)]

pub mod step;
pub mod sweep;

// A mean, and the residues that it has.
#[derive(Clone, Copy)]
pub struct Working {
    pub mean: [i64; 31],
    pub residues: [i64; 31],
}
