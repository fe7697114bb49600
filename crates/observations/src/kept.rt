// The numbers that a session keeps, as a call reads them. Whatever stands in a session that no call made, what is read is inside its
// limits: `observed_in` of `specs/Arrays.antt` says so of each. What open put there is read as it is.
ghost use Rattle.std.specs.Prelude.{◌≡◌, ◌<◌, ◌^◌};
ghost use Rattle.definitions.specs.Words.{part};
ghost use Rattle.definitions.specs.Sweep.{bring_back};
ghost use Rattle.observations.specs.Arrays.{at, mean_at, prior_at, ratio_at, brought_within, log_within};

use crate::inside::logarithm_within;
use crate::{PRIOR_MEANS, PRIOR_WEIGHTS, RATIO_WEIGHTS};
use arithmetic::limits::{brought_back, brought_within};
use scales::{Ticks, Variance, Weight};

const LEAST_VARIANCE: u64 = 1 << 18;

const MOST_VARIANCE: u64 = 1 << 40;

pub(crate) const MOST_WEIGHT: u64 = 1 << 28;

pub(crate) const MOST_RATIO_WEIGHT: u64 = 1 << 27;

// The logarithm of cell c.
pub fn kept_logarithm(ticks: &[i64; 303], c: usize) -> Ticks
    requires { c < 272 }
    ensures { result.0 ≡ log_within (part ticks.now c) }
{
    Ticks(logarithm_within(ticks[c]))
}

// The variance of part k.
pub fn kept_variance(variances: &[u64; 31], k: usize) -> Variance
    requires { k < 31 }
    ensures { result.0 ≡ brought_within (2 ^ 18) (2 ^ 40) (at variances.now k) }
{
    Variance(brought_within(LEAST_VARIANCE, MOST_VARIANCE, variances[k]))
}

// The prior mean of part k.
pub fn kept_prior_mean(ticks: &[i64; 303], k: usize) -> Ticks
    requires { k < 31 }
    ensures { result.0 ≡ bring_back (mean_at ticks.now k) }
{
    Ticks(brought_back(ticks[PRIOR_MEANS + k]))
}

// The weight of each of part k's observations.
pub fn kept_weight(weights: &[u64; 77], k: usize) -> Weight
    requires { k < 31 }
    ensures { result.0 ≡ brought_within 1 (2 ^ 28) (at weights.now k) }
{
    Weight(brought_within(1, MOST_WEIGHT, weights[k]))
}

// That of its prior.
pub fn kept_prior_weight(weights: &[u64; 77], k: usize) -> Weight
    requires { k < 31 }
    ensures { result.0 ≡ brought_within 0 (2 ^ 28) (prior_at weights.now k) }
{
    Weight(brought_within(0, MOST_WEIGHT, weights[PRIOR_WEIGHTS + k]))
}

// That of the ratio of development year d.
pub fn kept_ratio_weight(weights: &[u64; 77], d: usize) -> Weight
    requires { d < 15 }
    ensures { result.0 ≡ brought_within 0 (2 ^ 27) (ratio_at weights.now d) }
{
    Weight(brought_within(0, MOST_RATIO_WEIGHT, weights[RATIO_WEIGHTS + d]))
}
