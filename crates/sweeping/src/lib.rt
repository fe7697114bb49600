// The call `sweep`, over a session whose arrays are lent: the mean that is held is swept until it passes.
#![tactic(auto)]

ghost use Rattle.holding.specs.State.{held_at};
ghost use Rattle.sweeping.specs.SweepCall.{OpenSweep};
ghost use Rattle.sweeping.specs.Sweeps.{Sweeps};

use chain::judge::passes;
use chain::residues::residues;
use holding::bounds::frame_fits;
use layout::refusals::{Reason, Refusal};
use steps::Working;
use steps::sweep::sweeps;

const SWEEP_LIMIT: u64 = 4096;

// With how many sweeps were run since the file was opened or the last step was struck.
#[derive(Clone, Copy, Debug, PartialEq, Eq)]
pub enum Progress {
    Settled(u64),
    Going(u64),
}

// 21, 12, settled, 23.
pub fn sweep_lent<'a>(
    last: usize,
    closeness: u64,
    own: &'a [u64; 31],
    matrix: &'a [i64; 961],
    right_hand: &'a [i64; 31],
    mean: &'a mut [i64; 31],
    total: &'a mut u64,
    n: u64,
) -> Result<Progress, Refusal>
    ensures { Sweeps
        (held_at last closeness total.old
        own.now matrix.now right_hand.now mean.old)
        n result
        (held_at last closeness total.new
        own.now matrix.now right_hand.now mean.new) }
{
    let before = *total;
    let held = *mean;
    if !frame_fits(last, closeness, before, own, matrix, right_hand, &held) {
        return Err(Reason::NothingOpen.at(0));
    }
    let Some(found) = residues(last, matrix, right_hand, &held) else {
        return Err(Reason::NothingOpen.at(0));
    };
    if n < 1 || SWEEP_LIMIT < n {
        return Err(Reason::Sweeps.at(0));
    }
    let working = Working {
        mean: held,
        residues: found,
    };
    sweep_on(
        last, closeness, own, matrix, right_hand, mean, total, working, n,
    )
}

// Of a session with its working mean: settled, 23, and then the sweeps.
fn sweep_on<'a>(
    last: usize,
    closeness: u64,
    own: &'a [u64; 31],
    matrix: &'a [i64; 961],
    right_hand: &'a [i64; 31],
    mean: &'a mut [i64; 31],
    total: &'a mut u64,
    working: Working,
    n: u64,
) -> Result<Progress, Refusal>
    requires { OpenSweep (held_at last closeness total.old own.now matrix.now right_hand.now mean.old) working n }
    ensures { Sweeps
        (held_at last closeness total.old
        own.now matrix.now right_hand.now mean.old)
        n result
        (held_at last closeness total.new
        own.now matrix.now right_hand.now mean.new) }
{
    let before = *total;
    if passes(last, closeness, own, &working.residues) {
        return Ok(Progress::Settled(before));
    }
    if SWEEP_LIMIT <= before {
        return Err(Reason::Spent.at(0));
    }
    let swept = sweeps(last, closeness, own, matrix, right_hand, working, before, n);
    let settled = swept.working.mean;
    *mean = settled;
    *total = swept.total;
    if swept.passes {
        return Ok(Progress::Settled(swept.total));
    }
    Ok(Progress::Going(swept.total))
}
