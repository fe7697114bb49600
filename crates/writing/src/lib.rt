// The calls `read` and `page`, over a session whose arrays are lent: the mean that is held is written to a buffer, if it passes.
#![tactic(auto)]

ghost use Rattle.holding.specs.State.{held_at};
ghost use Rattle.writing.specs.Writes.{Reads, Pages};

use holding::passing::check_passing;
use layout::places::record_length;
use layout::refusals::{Reason, Refusal};
use pages::{page_length, write_page};
use records::write_record;

// 21, 24, 13. The record at the front of the buffer; the bytes behind it stay.
pub fn read_lent<'a>(
    last: usize,
    closeness: u64,
    total: u64,
    own: &'a [u64; 31],
    matrix: &'a [i64; 961],
    right_hand: &'a [i64; 31],
    mean: &'a [i64; 31],
    buffer: &'a mut [u8],
) -> Result<(), Refusal>
    ensures { Reads
        (held_at last closeness total own.now matrix.now right_hand.now mean.now)
        buffer.old result buffer.new }
{
    check_passing(last, closeness, total, own, matrix, right_hand, mean)?;
    let year = last as u8;
    if buffer.len() < record_length(year) {
        return Err(Reason::Buffer.at(0));
    }
    write_record(buffer, year, mean);
    Ok(())
}

// 21, 24, 13. The page at the front of the buffer; the bytes behind it stay.
pub fn page_lent<'a>(
    last: usize,
    closeness: u64,
    total: u64,
    own: &'a [u64; 31],
    matrix: &'a [i64; 961],
    right_hand: &'a [i64; 31],
    mean: &'a [i64; 31],
    buffer: &'a mut [u8],
) -> Result<(), Refusal>
    ensures { Pages
        (held_at last closeness total own.now matrix.now right_hand.now mean.now)
        buffer.old result buffer.new }
{
    check_passing(last, closeness, total, own, matrix, right_hand, mean)?;
    if buffer.len() < page_length(last) {
        return Err(Reason::Buffer.at(0));
    }
    write_page(buffer, last, mean, own);
    Ok(())
}
