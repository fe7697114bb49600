// What a file has for each part: its variance with the weight of that, the weight of its prior, its prior mean.
ghost use Rattle.std.specs.Prelude.{◌+◌};
ghost use Rattle.observations.specs.Reading.{OfPart, OfParts, PartsTo, Parts};

use crate::{PRIOR_MEANS, PRIOR_WEIGHTS};
use layout::places::{last_year, parts_of};
use readings::{prior_mean, prior_variance, variance_of};
use scales::weight_of;

fn read_part<'a>(
    ticks: &'a mut [i64; 303],
    weights: &'a mut [u64; 77],
    variances: &'a mut [u64; 31],
    file: &'a [u8],
    k: usize,
)
    requires { OfPart k file.now ticks.old weights.old variances.old }
    ensures { PartsTo (k + 1) file.now ticks.new weights.new variances.new }
{
    let variance = variance_of(file, k);
    variances[k] = variance.0;
    weights[k] = weight_of(variance).0;
    weights[PRIOR_WEIGHTS + k] = weight_of(prior_variance(file, k)).0;
    ticks[PRIOR_MEANS + k] = prior_mean(file, k).0;
}

pub fn read_parts<'a>(
    ticks: &'a mut [i64; 303],
    weights: &'a mut [u64; 77],
    variances: &'a mut [u64; 31],
    file: &'a [u8],
)
    requires { OfParts file.now ticks.old weights.old variances.old }
    ensures { Parts file.now ticks.new weights.new variances.new }
{
    let count = parts_of(last_year(file));
    for k in 0..count {
        read_part(ticks, weights, variances, file, k);
    }
}
