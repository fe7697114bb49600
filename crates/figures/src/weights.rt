// What the matrix is filled from: each part's own weight, and the sums of the weights of the ratios.
ghost use Rattle.figures.specs.Weights.{Shares, SharesOf, Owns, OwnWeights};

use observations::sums::running_sums;
use observations::{PRIOR_WEIGHTS, RATIO_WEIGHTS};

// The sums of the first n of the g, for n = 0..J.
pub fn shares(weights: &[u64; 77], last: u8) -> [i64; 16]
    requires { Shares weights.now last }
    ensures { SharesOf weights.now last result }
{
    running_sums(last as usize, |n| weights[RATIO_WEIGHTS + n] as i64)
}

// The own weights: a part's prior, and its own observations, as many as are left.
pub fn own_weights<'a>(weights: &'a [u64; 77], left: &'a [u64; 31], last: u8) -> [u64; 31]
    requires { Owns weights.now left.now last }
    ensures { OwnWeights weights.now left.now last result }
{
    let count = 2 * (last as usize) + 1;
    let mut own = [0u64; 31];
    for k in 0..count {
        own[k] = weights[PRIOR_WEIGHTS + k] + left[k] * weights[k];
    }
    own
}
