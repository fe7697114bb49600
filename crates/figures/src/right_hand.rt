// The right-hand side, from the logarithms of the amounts, the prior means and the weights.
ghost use Rattle.std.specs.Prelude.{◌≡◌, not, cond, eqb, pos, ◌*ℤ◌, ◌<◌};
ghost use Rattle.observations.specs.Arrays.{ratio_at};
ghost use Rattle.figures.specs.Sums.{
  OfRows,
  OfSteps,
  step_sum,
  start_sum,
  OfColumn,
  column_sum,
  ColumnSums,
  OfRatios,
  ratio_of,
  RatioSums,
  OfTarget,
  target_from,
  OfTargets,
  Targets,
};

use crate::matrix::rank_of;
use layout::places::cells_of;
use observations::sums::running_sums;
use observations::{PRIOR_MEANS, PRIOR_WEIGHTS, RATIO_WEIGHTS};

// What a step counts for: nothing where it is marked as struck.
fn counted(mark: u8, step: i64) -> i64
    ensures { result ≡ cond (not (eqb mark 0)) (pos 0) step }
{
    if mark == 0 { step } else { 0 }
}

// What the sums of observations go over. Cell c of the two blocks has the logarithm c.
#[derive(Drop)]
pub struct Columns<'a> {
    pub ticks: &'a [i64; 303],
    // Of the rows of a block.
    pub starts: [usize; 16],
    pub struck: &'a [u8; 496],
    pub last: u8,
    pub ghost of_rows: { OfRows ticks.now starts last },
}

impl<'a> Columns<'a> {
    // Σ over the accident years of the step from a column of a block to the next: the next cell's logarithm less the cell's. They are
    // the observations of part k.
    fn step_sum(&self, block: usize, column: usize, k: usize) -> i64
        requires { OfSteps self.now.ticks.now self.now.starts self.now.last block column k }
        ensures { result ≡ step_sum self.now.ticks.now self.now.struck.now self.now.last block column k }
    {
        let count = self.last as usize - column;
        let mut total = 0i64;
        for i in 0..count {
            let at = block + (self.starts[i] + column);
            let step = self.ticks[at + 1] - self.ticks[at];
            total += counted(self.struck[16 * k + i], step);
        }
        total
    }

    // Σ of the logarithms of each year's first paid amount.
    fn start_sum(&self) -> i64
        ensures { result ≡ start_sum self.now.ticks.now self.now.struck.now self.now.last }
    {
        let count = self.last as usize + 1;
        let mut total = 0i64;
        for i in 0..count {
            total += counted(self.struck[i], self.ticks[self.starts[i]]);
        }
        total
    }

    // Σ of a part's own observations.
    fn column_sum(&self, k: usize) -> i64
        requires { OfColumn self.now.ticks.now self.now.starts self.now.last k }
        ensures { result ≡ column_sum self.now.ticks.now self.now.struck.now self.now.last k }
    {
        let years = self.last as usize;
        if k == 0 {
            self.start_sum()
        } else if k <= years {
            self.step_sum(0, k - 1, k)
        } else {
            self.step_sum(cells_of(self.last), k - years - 1, k)
        }
    }

    // Those of every part.
    pub fn column_sums(&self) -> [i64; 31]
        ensures { ColumnSums self.now.ticks.now self.now.struck.now self.now.last result }
    {
        let count = 2 * (self.last as usize) + 1;
        let mut sums = [0i64; 31];
        for k in 0..count {
            sums[k] = self.column_sum(k);
        }
        sums
    }

    // g times y of development year d, which is the last one of the accident year J − d.
    fn weighed_ratio(&self, weights: &[u64; 77], d: usize) -> i64
        requires of_ratios { OfRatios weights.now self.now.ticks.now self.now.starts self.now.last }
        requires below { d < self.now.last }
        ensures { result ≡ pos (ratio_at weights.now d) *ℤ ratio_of self.now.ticks.now self.now.last d }
    {
        let cells = cells_of(self.last);
        let year = self.last as usize - d;
        let at = self.starts[year] + d;
        weights[RATIO_WEIGHTS + d] as i64 * (self.ticks[cells + at] - self.ticks[at])
    }

    // The sums of those over the first n development years, for n = 0..J.
    pub fn ratio_sums(&self, weights: &[u64; 77]) -> [i64; 16]
        requires { OfRatios weights.now self.now.ticks.now self.now.starts self.now.last }
        ensures { RatioSums weights.now self.now.ticks.now self.now.last result }
    {
        running_sums(self.last as usize, |d| self.weighed_ratio(weights, d))
    }
}

// One part's right-hand side: its prior, its own observations, and the ratios that it shares in, which count against a Ψ.
fn right_hand_at<'a>(
    weights: &'a [u64; 77],
    ticks: &'a [i64; 303],
    sums: &'a [i64; 31],
    ratios: &'a [i64; 16],
    last: u8,
    k: usize,
) -> i64
    requires { OfTarget weights.now ticks.now sums.now ratios.now last k }
    ensures { result ≡ target_from weights.now ticks.now sums.now ratios.now last k }
{
    let prior = weights[PRIOR_WEIGHTS + k] as i64 * ticks[PRIOR_MEANS + k];
    let own = prior + weights[k] as i64 * sums[k];
    let shared = ratios[rank_of(last, k)];
    if k <= last as usize {
        own + shared
    } else {
        own - shared
    }
}

pub fn right_hand_of<'a>(
    weights: &'a [u64; 77],
    ticks: &'a [i64; 303],
    sums: &'a [i64; 31],
    ratios: &'a [i64; 16],
    last: u8,
) -> [i64; 31]
    requires { OfTargets weights.now ticks.now sums.now ratios.now last }
    ensures { Targets weights.now ticks.now sums.now ratios.now last result }
{
    let count = 2 * (last as usize) + 1;
    let mut targets = [0i64; 31];
    for k in 0..count {
        targets[k] = right_hand_at(weights, ticks, sums, ratios, last, k);
    }
    targets
}
