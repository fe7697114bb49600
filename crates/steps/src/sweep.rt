// One sweep, and the sweeps of a call.
ghost use Rattle.chain.specs.Arrays.{figures_at};
ghost use Rattle.steps.specs.Sweep.{OfSystem, OneSwept, OfParts, SweptFrom};
ghost use Rattle.steps.specs.Sweeps.{Sweeps, SweptTo};

use crate::Working;
use crate::step::step_in;
use chain::judge::passes;

const SWEEP_LIMIT: u64 = 4096;

// The working mean after the sweeps of a call, the sweeps run since open or the last strike, and whether the mean passes.
#[derive(Drop)]
pub struct Swept {
    pub working: Working,
    pub total: u64,
    pub passes: bool,
}

// One step of each of the parts from `first` on that stand before `end`, in order.
fn sweep_from(
    last: usize,
    matrix: &[i64; 961],
    working: Working,
    first: usize,
    end: usize,
) -> Working
    requires { OfParts last matrix.now working end }
    ensures { SweptFrom last matrix.now working first end result }
{
    let mut current = working;
    for k in first..end {
        step_in(&mut current, last, matrix, k);
    }
    current
}

// One sweep: the parts 0..2J.
pub fn one_sweep(last: usize, matrix: &[i64; 961], working: Working) -> Working
    requires { OfSystem last matrix.now working }
    ensures { OneSwept last matrix.now working result }
{
    sweep_from(last, matrix, working, 0, 2 * last + 1)
}

// Up to n sweeps, none once the mean passes or the total is 4,096. The right-hand side is in the residues: it is lent for the
// contract, which speaks of it.
pub fn sweeps<'a>(
    last: usize,
    closeness: u64,
    own: &'a [u64; 31],
    matrix: &'a [i64; 961],
    _right_hand: &'a [i64; 31],
    working: Working,
    total: u64,
    n: u64,
) -> Swept
    requires { Sweeps (figures_at last closeness own.now matrix.now _right_hand.now) working }
    ensures { SweptTo (figures_at last closeness own.now matrix.now _right_hand.now) working total n result }
{
    let mut current = working;
    let mut run = total;
    let mut passed = passes(last, closeness, own, &current.residues);
    for _ in 0..n {
        if passed || SWEEP_LIMIT <= run {
            break;
        }
        current = one_sweep(last, matrix, current);
        run += 1;
        passed = passes(last, closeness, own, &current.residues);
    }
    Swept {
        working: current,
        total: run,
        passes: passed,
    }
}
