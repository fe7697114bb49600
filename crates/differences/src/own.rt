// What a part misses its prior and its own observations by.
ghost use Rattle.std.specs.Prelude.{◌≡◌, false, not, cond, eqb, ◌-ℤ◌, ◌+◌, ◌<◌, ◌≤◌, nat_abs};
ghost use Rattle.definitions.specs.Layout.{parts};
ghost use Rattle.definitions.specs.Refusals.{part_limit};
ghost use Rattle.definitions.specs.Kept.{steps_of};
ghost use Rattle.differences.specs.Differences.{log_at, ObservationIs, StepsMissed, PriorMissed};

use crate::kept::Kept;
use crate::terms::weighed;
use layout::places::cells_of;
use observations::kept::{kept_logarithm, kept_prior_mean, kept_prior_weight, kept_weight};
use observations::strikes::{left_of, steps_of};

// What a step counts for: nothing where it is struck. In a column of which none is left, as it is marked throughout, every step counts.
fn step_weight(left: u64, mark: u8, weight: u64) -> u64
    ensures { result ≡ cond (cond (eqb left 0) false (not (eqb mark 0))) 0 weight }
{
    if left == 0 || mark == 0 { weight } else { 0 }
}

impl<'a> Kept<'a> {
    // The step from a cell to the next.
    fn step_at(&self, cell: usize) -> i64
        requires { cell + 1 < 272 }
        ensures { result ≡ log_at self.now.ticks.now (cell + 1) -ℤ log_at self.now.ticks.now cell }
    {
        kept_logarithm(self.ticks, cell + 1).0 - kept_logarithm(self.ticks, cell).0
    }

    // The observation of part k and accident year i.
    fn observation(&self, k: usize, i: usize) -> i64
        requires below { k < parts self.now.last }
        requires there { i < steps_of self.now.last k }
        ensures { ObservationIs self.now.ticks.now self.now.last k i result }
    {
        let start = self.starts[i];
        let years = self.last as usize;
        if k == 0 {
            kept_logarithm(self.ticks, start).0
        } else if k <= years {
            self.step_at(start + (k - 1))
        } else {
            self.step_at(cells_of(self.last) + (start + (k - years - 1)))
        }
    }

    // Of part k, which is `value`: its own observations.
    pub fn steps_missed(&self, k: usize, value: i64) -> i64
        requires below { k < parts self.now.last }
        requires small { nat_abs value ≤ part_limit }
        ensures { StepsMissed self.now.ticks.now self.now.weights.now self.now.struck.now self.now.last k value result }
    {
        let count = steps_of(self.last, k);
        let left = left_of(self.struck, k, count);
        let weight = kept_weight(self.weights, k).0;
        let mut total = 0i64;
        for i in 0..count {
            total += weighed(
                step_weight(left, self.struck[16 * k + i], weight),
                value,
                self.observation(k, i),
            );
        }
        total
    }

    // Its prior.
    pub fn prior_missed(&self, k: usize, value: i64) -> i64
        requires below { k < parts self.now.last }
        requires small { nat_abs value ≤ part_limit }
        ensures { PriorMissed self.now.ticks.now self.now.weights.now self.now.last k value result }
    {
        let mean = kept_prior_mean(self.ticks, k);
        weighed(kept_prior_weight(self.weights, k).0, value, mean.0)
    }
}
