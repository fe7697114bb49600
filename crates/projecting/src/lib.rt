// The call `ultimate`, over a session whose arrays are lent: the central ultimate of one accident year, if the mean that is held passes.
#![tactic(auto)]

ghost use Rattle.holding.specs.State.{held_at};
ghost use Rattle.projecting.specs.Projects.{ProjectsLent};

use crate::central::central_ultimate;
use holding::passing::check_passing;
use layout::refusals::{Reason, Refusal};

mod central;

// A figure in ticks: floor and remainder over the divisor.
#[derive(Clone, Copy, Debug, PartialEq, Eq)]
pub struct Ultimate {
    pub floor: i64,
    pub remainder: u64,
    pub divisor: u64,
}

// 21, 24, 25. Of the observations it is lent those that it reads.
pub fn ultimate_lent<'a>(
    last: usize,
    closeness: u64,
    total: u64,
    own: &'a [u64; 31],
    matrix: &'a [i64; 961],
    right_hand: &'a [i64; 31],
    mean: &'a [i64; 31],
    ticks: &'a [i64; 303],
    variances: &'a [u64; 31],
    year: u64,
) -> Result<Ultimate, Refusal>
    ensures { ProjectsLent ticks.now variances.now
        (held_at last closeness total own.now matrix.now right_hand.now mean.now)
        year result }
{
    check_passing(last, closeness, total, own, matrix, right_hand, mean)?;
    if year < 1 {
        return Err(Reason::UltimateYear.at(0));
    }
    if (last as u64) < year {
        return Err(Reason::UltimateYear.at(0));
    }
    Ok(central_ultimate(last, mean, ticks, variances, year as usize))
}
