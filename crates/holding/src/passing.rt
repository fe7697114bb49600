// 21 and 24: what is asked before anything of the mean that is held is handed out.
ghost use Rattle.holding.specs.State.{held_at};
ghost use Rattle.holding.specs.Passing.{Passing};

use crate::bounds::frame_fits;
use chain::judge::passes;
use chain::residues::residues;
use layout::refusals::{Reason, Refusal};

pub fn check_passing<'a>(
    last: usize,
    closeness: u64,
    total: u64,
    own: &'a [u64; 31],
    matrix: &'a [i64; 961],
    right_hand: &'a [i64; 31],
    mean: &'a [i64; 31],
) -> Result<(), Refusal>
    ensures { Passing
        (held_at last closeness total own.now matrix.now right_hand.now mean.now)
        result }
{
    if !frame_fits(last, closeness, total, own, matrix, right_hand, mean) {
        return Err(Reason::NothingOpen.at(0));
    }
    let Some(found) = residues(last, matrix, right_hand, mean) else {
        return Err(Reason::NothingOpen.at(0));
    };
    if !passes(last, closeness, own, &found) {
        return Err(Reason::NotPassed.at(0));
    }
    Ok(())
}
