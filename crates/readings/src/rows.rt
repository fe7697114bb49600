// The rows of the two blocks: where a row stands, and the row itself as a part of the file.
ghost use Rattle.std.specs.Prelude.{◌≡◌, ◌-◌, ◌≤◌, cond, length, take, drop, eqb};
ghost use Rattle.definitions.specs.Layout.{row_bytes};
ghost use Rattle.definitions.specs.Refusals.{row_check};
ghost use Rattle.definitions.specs.Machine.{row_part};
ghost use Rattle.layout.specs.Refusals.{told};
ghost use Rattle.layout.specs.CheckLaws.{Shown};
ghost use Rattle.readings.specs.Rows.{Places};

use layout::checks::file::check_file;
use layout::places::{amounts_at, cells_of, last_year};
use layout::refusals::{Reason, Refusal};
use row_starts::row_start;

// The bytes start..end of the paid block, or of the incurred block.
fn part<'a>(
    paid: &'a [u8],
    incurred: &'a [u8],
    channel: usize,
    start: usize,
    end: usize,
) -> &'a [u8]
    requires { (start ≤ end) × (end ≤ length paid.now) × (end ≤ length incurred.now) }
    ensures { result.now ≡ take (end - start) (drop start (cond (eqb channel 0) paid.now incurred.now)) }
{
    if channel == 0 {
        &paid[start..end]
    } else {
        &incurred[start..end]
    }
}

// Whether the row is shown, or else why not and where.
#[tactic(auto, unfolding(definitions::specs::Refusals::row_check))]
pub fn row_told(s: &[u8], channel: usize, year: usize) -> Result<(), Refusal>
    ensures { told result ≡ row_check s.now channel year }
{
    check_file(s)?;
    if 1 < channel {
        return Err(Reason::Channel.at(0));
    }
    if (last_year(s) as usize) < year {
        return Err(Reason::Row.at(0));
    }
    Ok(())
}

// A row that is not refused.
fn shown_row(s: &[u8], channel: usize, year: usize) -> &[u8]
    requires { Shown s.now channel year }
    ensures { result.now ≡ row_bytes s.now channel year }
{
    let last = last_year(s);
    let start = amounts_at(last);
    let middle = start + 8 * cells_of(last);
    let first = 8 * row_start(last, year);
    let end = first + 8 * (last as usize + 1 - year);
    part(&s[start..middle], &s[middle..], channel, first, end)
}

// A year's row, from the block of the channel; empty exactly where `row_told` refuses.
pub fn row(s: &[u8], channel: usize, year: usize) -> &[u8]
    ensures { result.now ≡ row_part s.now channel year }
{
    if row_told(s, channel, year).is_err() {
        return &s[..0];
    }
    shown_row(s, channel, year)
}

// Where a row stands in the file.
#[derive(Clone, Copy)]
pub struct RowPlace {
    pub start: usize,
    pub length: usize,
}

// Of a row that is not refused.
pub fn row_place(s: &[u8], channel: usize, year: usize) -> RowPlace
    requires { Shown s.now channel year }
    ensures { Places s.now channel year result }
{
    let last = last_year(s);
    let cells = channel * cells_of(last) + row_start(last, year);
    RowPlace {
        start: amounts_at(last) + 8 * cells,
        length: 8 * (last as usize + 1 - year),
    }
}
