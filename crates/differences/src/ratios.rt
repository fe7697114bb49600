// What a mean misses the ratios of incurred to paid by.
ghost use Rattle.std.specs.Prelude.{◌≡◌, ℕ, ◌<◌, ◌≤◌, nat_abs};
ghost use Rattle.definitions.specs.Words.{part};
ghost use Rattle.definitions.specs.Layout.{parts};
ghost use Rattle.definitions.specs.Refusals.{part_limit};
ghost use Rattle.differences.specs.Differences.{OfRatio, ratio_from, RatioMissed, RatiosMissed};

use crate::kept::Kept;
use crate::terms::weighed;
use layout::places::cells_of;
use observations::kept::{kept_logarithm, kept_ratio_weight};
use observations::sums::running_sums;

// ΣΦ_m for m > d, minus ΣΨ_n for n ≥ d.
fn ratio_of(mean: &[i64; 31], last: u8, d: usize) -> i64
    requires { OfRatio mean.now last d }
    ensures { result ≡ ratio_from mean.now last d }
{
    let years = last as usize;
    let count = years - d;
    let mut total = 0i64;
    for n in 0..count {
        total += mean[d + 1 + n] - mean[years + 1 + d + n];
    }
    total
}

impl<'a> Kept<'a> {
    // Weight times difference, of development year d, which is the last one of the accident year J − d.
    fn ratio_missed(&self, mean: &[i64; 31], d: usize) -> i64
        requires below { d < self.now.last }
        requires small { (k : ℕ) → k < parts self.now.last → nat_abs (part mean.now k) ≤ part_limit }
        ensures { RatioMissed self.now.ticks.now self.now.weights.now mean.now self.now.last d result }
    {
        let cells = cells_of(self.last);
        let at = self.starts[self.last as usize - d] + d;
        let incurred = kept_logarithm(self.ticks, cells + at);
        let paid = kept_logarithm(self.ticks, at);
        let weight = kept_ratio_weight(self.weights, d);
        weighed(weight.0, ratio_of(mean, self.last, d), incurred.0 - paid.0)
    }

    // Those added up over the first n development years, for n = 0..J.
    pub fn ratios_missed(&self, mean: &[i64; 31]) -> [i64; 16]
        requires { (k : ℕ) → k < parts self.now.last → nat_abs (part mean.now k) ≤ part_limit }
        ensures { RatiosMissed self.now.ticks.now self.now.weights.now mean.now self.now.last result }
    {
        running_sums(self.last as usize, |d| self.ratio_missed(mean, d))
    }
}
