// The call `residues`, over a session whose arrays are lent: of a mean record, whoever wrote it, the residues are written to a buffer,
// worked out observation by observation. The session stays as it is.
#![tactic(auto)]

ghost use Rattle.holding.specs.State.{held_at};
ghost use Rattle.weighing.specs.Weighs.{WeighsLent};

use crate::bytes::{residues_length, write_residues};
use differences::residues_of;
use holding::bounds::is_open;
use layout::refusals::{Reason, Refusal};
use records::parse;

mod bytes;

// 21, then 1, 2, 4, 11, then 13. Whether a file is open is tested as every call tests it, by all that is held; the residues are made of the
// observations alone. The variances of the file play no part.
pub fn residues_lent<'a>(
    last: usize,
    closeness: u64,
    total: u64,
    own: &'a [u64; 31],
    matrix: &'a [i64; 961],
    right_hand: &'a [i64; 31],
    mean: &'a [i64; 31],
    ticks: &'a [i64; 303],
    weights: &'a [u64; 77],
    struck: &'a [u8; 496],
    lent: &'a [u8],
    buffer: &'a mut [u8],
) -> Result<(), Refusal>
    ensures { WeighsLent ticks.now weights.now struck.now
        (held_at last closeness total own.now matrix.now right_hand.now mean.now)
        lent.now buffer.old result buffer.new }
{
    if !is_open(last, closeness, total, own, matrix, right_hand, mean) {
        return Err(Reason::NothingOpen.at(0));
    }
    let years = last as u8;
    let of_record = parse(years, lent)?;
    if buffer.len() < residues_length(years) {
        return Err(Reason::Buffer.at(0));
    }
    let residues = residues_of(ticks, weights, struck, &of_record, years);
    write_residues(buffer, years, &residues);
    Ok(())
}
