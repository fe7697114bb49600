// Which steps there are, where the mark of one stands, and whether it may be struck.
ghost use Rattle.std.specs.Prelude.{◌≡◌, ◌+◌, ◌*◌};
ghost use Rattle.definitions.specs.Strikes.{step, is_step, strike_check};
ghost use Rattle.definitions.specs.Kept.{part_of_step};
ghost use Rattle.layout.specs.Refusals.{told};
ghost use Rattle.observations.specs.Strikes.{OfYears};
ghost use Rattle.striking.specs.Steps.{OfStep, mark_of};

use layout::refusals::{Reason, Refusal};
use observations::strikes::{left_of, steps_of};

// Whether there is such a step, whatever the numbers: accident year i has the columns 0..J−i of x, and those before J−i of z.
fn is_step(last: u8, channel: u64, year: u64, column: u64) -> bool
    ensures { result ≡ is_step last (step channel year column) }
{
    let years = last as u64;
    if years < year {
        return false;
    }
    if channel == 0 {
        return column <= years - year;
    }
    column < years - year
}

// The part whose observation a step is.
fn part_of(last: u8, channel: u64, year: u64, column: u64) -> usize
    requires { OfStep last channel year column }
    ensures { result ≡ part_of_step last (step channel year column) }
{
    if channel == 0 {
        column as usize
    } else {
        last as usize + 1 + column as usize
    }
}

// Where its mark stands.
pub fn place_of(last: u8, channel: u64, year: u64, column: u64) -> usize
    requires { OfStep last channel year column }
    ensures { result ≡ 16 * part_of_step last (step channel year column) + year }
{
    16 * part_of(last, channel, year, column) + year as usize
}

// 14, 26, 27, by marks of which no column is marked throughout.
pub fn check_step(
    marks: &[u8; 496],
    last: u8,
    channel: u64,
    year: u64,
    column: u64,
) -> Result<(), Refusal>
    requires { OfYears last }
    ensures { told result ≡ strike_check last (mark_of last marks.now) (step channel year column) }
{
    if 1 < channel {
        return Err(Reason::Channel.at(0));
    }
    if !is_step(last, channel, year, column) {
        return Err(Reason::Step.at(0));
    }
    if marks[place_of(last, channel, year, column)] != 0 {
        return Err(Reason::Step.at(0));
    }
    let k = part_of(last, channel, year, column);
    if left_of(marks, k, steps_of(last, k)) == 1 {
        return Err(Reason::LastStep.at(0));
    }
    Ok(())
}
