// The call `judge`, over a session whose arrays are lent: the mean of a record, whoever wrote it, is tested against the open file.
#![tactic(auto)]

ghost use Rattle.holding.specs.State.{held_at};
ghost use Rattle.judging.specs.Judges.{Judges};

use chain::judge::{Judgement, test};
use chain::residues::residues;
use holding::bounds::frame_fits;
use layout::refusals::{Reason, Refusal};
use records::parse;

// 21, then 1, 2, 4 and 11. The rows of the matrix are tested with the mean that is held where the record is refused, and with the
// record's where it is not: one pass either way.
pub fn judge_lent<'a>(
    last: usize,
    closeness: u64,
    total: u64,
    own: &'a [u64; 31],
    matrix: &'a [i64; 961],
    right_hand: &'a [i64; 31],
    mean: &'a [i64; 31],
    lent: &'a [u8],
) -> Result<Judgement, Refusal>
    ensures { Judges
        (held_at last closeness total own.now matrix.now right_hand.now mean.now)
        lent.now result }
{
    if !frame_fits(last, closeness, total, own, matrix, right_hand, mean) {
        return Err(Reason::NothingOpen.at(0));
    }
    let year = last as u8;
    match parse(year, lent) {
        Err(refusal) => {
            let Some(_) = residues(last, matrix, right_hand, mean) else {
                return Err(Reason::NothingOpen.at(0));
            };
            Err(refusal)
        }
        Ok(proposed) => {
            let Some(found) = residues(last, matrix, right_hand, &proposed) else {
                return Err(Reason::NothingOpen.at(0));
            };
            Ok(test(last, closeness, own, &found))
        }
    }
}
