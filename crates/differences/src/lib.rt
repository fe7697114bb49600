// The residues of a mean straight from what a session keeps: weight times difference, added up over the observations that each part stands
// in. No matrix is lent, and none is formed.
#![tactic(auto)]

ghost use Rattle.std.specs.Prelude.{ℕ, ◌<◌, ◌≤◌, ◌^◌, nat_abs};
ghost use Rattle.definitions.specs.Words.{part};
ghost use Rattle.definitions.specs.Layout.{parts};
ghost use Rattle.definitions.specs.Refusals.{part_limit};
ghost use Rattle.differences.specs.Differences.{ResidueAt, OfResidues, ResiduesOf};

use crate::kept::Kept;
use row_starts::starts_of;

mod kept;
mod own;
mod ratios;
mod terms;

impl<'a> Kept<'a> {
    // Of part k, which is `value`: its prior, its own observations, and the ratios that it stands in, which subtract a Ψ. `shared` has the
    // sums of the ratios of the first n development years.
    fn residue_at(&self, shared: &[i64; 16], k: usize, value: i64) -> i64
        requires below { k < parts self.now.last }
        requires small { nat_abs value ≤ part_limit }
        requires shared_small { (n : ℕ) → n ≤ self.now.last → nat_abs (part shared.now n) ≤ 2 ^ 62 }
        ensures { ResidueAt self.now.ticks.now self.now.weights.now self.now.struck.now shared.now self.now.last k value result }
    {
        let steps = self.steps_missed(k, value);
        let own = self.prior_missed(k, value) + steps;
        let years = self.last as usize;
        if k <= years {
            own + shared[k]
        } else {
            own - shared[k - years]
        }
    }
}

pub fn residues_of<'a>(
    ticks: &'a [i64; 303],
    weights: &'a [u64; 77],
    struck: &'a [u8; 496],
    mean: &'a [i64; 31],
    last: u8,
) -> [i64; 31]
    requires { OfResidues mean.now last }
    ensures { ResiduesOf ticks.now weights.now struck.now mean.now last result }
{
    let count = 2 * (last as usize) + 1;
    let kept = Kept {
        ticks,
        weights,
        struck,
        starts: starts_of(last),
        last,
    };
    let shared = kept.ratios_missed(mean);
    let mut residues = [0i64; 31];
    for k in 0..count {
        residues[k] = kept.residue_at(&shared, k, mean[k]);
    }
    residues
}
