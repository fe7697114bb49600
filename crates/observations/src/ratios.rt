// The weights of the ratios.
ghost use Rattle.observations.specs.Ratios.{OfVariances, RatiosWeighed};

use crate::RATIO_WEIGHTS;
use scales::{Variance, weight_of};

// By development year. The variances still to come are added up from the last year down, and each sum is rounded once.
pub fn weigh_ratios<'a>(weights: &'a mut [u64; 77], variances: &'a [u64; 31], last: u8)
    requires { OfVariances weights.old variances.now last }
    ensures { RatiosWeighed variances.now last weights.old weights.new }
{
    let mut variance = 0u64;
    let years = last as usize;
    for k in (0..years).rev() {
        variance += variances[k + 1] + variances[years + 1 + k];
        weights[RATIO_WEIGHTS + k] = weight_of(Variance(variance)).0;
    }
}
