// What a session keeps, brought inside its limits: the numbers that `observed_in` and `struck_in` of `specs/Arrays.antt` say it stands for.
// What calls put there stays as it is.
ghost use Rattle.std.specs.Prelude.{◌≡◌, cond, ◌≤◌, eqb};
ghost use Rattle.observations.specs.Arrays.{log_within};
ghost use Rattle.observations.specs.Inside.{
  tick_within,
  TicksInside,
  least_weight,
  most_weight,
  WeightsInside,
  MarksInside,
};

use crate::kept::{MOST_RATIO_WEIGHT, MOST_WEIGHT};
use crate::{PRIOR_MEANS, RATIO_WEIGHTS};
use arithmetic::limits::{brought_back, brought_within};

const LOGARITHM_LIMIT: i64 = 46_137_344;

// A logarithm: from 0 to that of the largest amount.
pub fn logarithm_within(z: i64) -> i64
    ensures { result ≡ log_within z }
{
    z.clamp(0, LOGARITHM_LIMIT)
}

// The number at place c: a logarithm, or behind them a prior mean.
fn tick_within(c: usize, z: i64) -> i64
    ensures { result ≡ tick_within c z }
{
    if c < PRIOR_MEANS {
        logarithm_within(z)
    } else {
        brought_back(z)
    }
}

pub fn ticks_inside(ticks: &[i64; 303]) -> [i64; 303]
    ensures { TicksInside ticks.now result }
{
    let mut inside = [0i64; 303];
    for c in 0..303 {
        inside[c] = tick_within(c, ticks[c]);
    }
    inside
}

// The limits of the weight at place c.
fn least_weight(n: usize, c: usize) -> u64
    ensures { result ≡ least_weight n c }
{
    if c < n { 1 } else { 0 }
}

fn most_weight(c: usize) -> u64
    ensures { result ≡ most_weight c }
{
    if c < RATIO_WEIGHTS {
        MOST_WEIGHT
    } else {
        MOST_RATIO_WEIGHT
    }
}

// Of n parts.
pub fn weights_inside(weights: &[u64; 77], n: usize) -> [u64; 77]
    requires { n ≤ 31 }
    ensures { WeightsInside n weights.now result }
{
    let mut inside = [0u64; 77];
    for c in 0..77 {
        inside[c] = brought_within(least_weight(n, c), most_weight(c), weights[c]);
    }
    inside
}

// A mark of a column of which so many steps are left.
fn mark_within(left: u64, mark: u8) -> u8
    ensures { result ≡ cond (eqb left 0) 0 mark }
{
    if left == 0 { 0 } else { mark }
}

pub fn marks_inside<'a>(left: &'a [u64; 31], struck: &'a [u8; 496]) -> [u8; 496]
    ensures { MarksInside left.now struck.now result }
{
    let mut inside = [0u8; 496];
    for c in 0..496 {
        inside[c] = mark_within(left[c / 16], struck[c]);
    }
    inside
}
