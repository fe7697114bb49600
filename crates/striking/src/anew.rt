// The figures made anew of what a session keeps, with the prior means as mean.
ghost use Rattle.observations.specs.Strikes.{OfYears};
ghost use Rattle.striking.specs.Anew.{Anew};

use figures::figures_in;
use observations::inside::{ticks_inside, weights_inside};
use observations::means::start_mean;

// Ticks and weights are brought inside their limits first: those that calls put there stay as they are.
pub fn made_anew<'a>(
    own: &'a mut [u64; 31],
    matrix: &'a mut [i64; 961],
    right_hand: &'a mut [i64; 31],
    mean: &'a mut [i64; 31],
    ticks: &'a mut [i64; 303],
    weights: &'a mut [u64; 77],
    struck: &'a [u8; 496],
    last: u8,
)
    requires { OfYears last }
    ensures { Anew last ticks.old weights.old struck.now own.new matrix.new
        right_hand.new mean.new ticks.new weights.new }
{
    let logs = ticks_inside(ticks);
    let weighed = weights_inside(weights, 2 * (last as usize) + 1);
    figures_in(own, matrix, right_hand, &logs, &weighed, struck, last);
    start_mean(mean, &logs, last);
    *ticks = logs;
    *weights = weighed;
}
