// The observations of an accepted file, read into arrays, one for each unit. Each logarithm and each weight is rounded here, once; what
// is made of a file afterwards is made of these arrays. No step is struck yet.
#![tactic(auto)]

ghost use Rattle.laws.specs.Accepted.{AcceptedFile};
ghost use Rattle.observations.specs.Reading.{Observes};

use crate::logarithms::read_logarithms;
use crate::parts::read_parts;
use crate::ratios::weigh_ratios;
use layout::places::last_year;

pub mod inside;
pub mod kept;
pub mod logarithms;
pub mod means;
pub mod parts;
pub mod ratios;
pub mod strikes;
pub mod sums;

// Where the prior means stand behind the logarithms of at most 272 cells.
pub const PRIOR_MEANS: usize = 272;
// Where the weights of the priors stand behind those of at most 31 parts, and those of the ratios behind both.
pub const PRIOR_WEIGHTS: usize = 31;

pub const RATIO_WEIGHTS: usize = 62;

// Ticks: the logarithms of the amounts, paid block first; then the prior means. Weights: of each part's observations (p and q), of the
// priors (s and t), of the ratios by development year (g). Variances: of each part (σ² and τ²). Struck: the marks of struck steps.
#[derive(Clone, Copy)]
pub struct Observations {
    pub ticks: [i64; 303],
    pub weights: [u64; 77],
    pub variances: [u64; 31],
    pub struck: [u8; 496],
}

pub fn observe<'a>(
    ticks: &'a mut [i64; 303],
    weights: &'a mut [u64; 77],
    variances: &'a mut [u64; 31],
    struck: &'a mut [u8; 496],
    file: &'a [u8],
)
    requires { AcceptedFile file.now }
    ensures { Observes file.now ticks.new weights.new variances.new struck.new }
{
    *ticks = [0; 303];
    *weights = [0; 77];
    *variances = [0; 31];
    *struck = [0; 496];
    read_logarithms(ticks, file);
    read_parts(ticks, weights, variances, file);
    weigh_ratios(weights, variances, last_year(file));
}
