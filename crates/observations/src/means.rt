// The prior means as a mean: where a sweep starts.
ghost use Rattle.observations.specs.Means.{OfMeans, PriorMeans};

use crate::PRIOR_MEANS;

pub fn start_mean<'a>(mean: &'a mut [i64; 31], ticks: &'a [i64; 303], last: u8)
    requires { OfMeans ticks.now last }
    ensures { PriorMeans ticks.now last mean.new }
{
    let count = 2 * (last as usize) + 1;
    *mean = [0; 31];
    // One by one: by a copy of the slice the library for C would want another function of the C library.
    for k in 0..count {
        mean[k] = ticks[PRIOR_MEANS + k];
    }
}
