// The call `strike`, over a session whose arrays are lent: a step is marked as struck, and the figures are made anew of what is left, by
// the function that open uses.
#![tactic(auto)]

ghost use Rattle.holding.specs.State.{held_in};
ghost use Rattle.striking.specs.Strikes.{StrikesLent};

use crate::anew::made_anew;
use crate::steps::{check_step, place_of};
use holding::bounds::is_open;
use layout::refusals::{Reason, Refusal};
use observations::inside::marks_inside;
use observations::strikes::left_in;

mod anew;
mod steps;

// 21, then 14, 26, 27. The mean goes back to the prior means, and the sweeps run to 0. The variances of the file play no part.
pub fn strike_lent<'a>(
    held: &'a mut [u64; 3],
    own: &'a mut [u64; 31],
    matrix: &'a mut [i64; 961],
    right_hand: &'a mut [i64; 31],
    mean: &'a mut [i64; 31],
    ticks: &'a mut [i64; 303],
    weights: &'a mut [u64; 77],
    struck: &'a mut [u8; 496],
    channel: u64,
    year: u64,
    column: u64,
) -> Result<(), Refusal>
    ensures { StrikesLent channel year column
        (held_in held.old own.old matrix.old right_hand.old mean.old)
        ticks.old weights.old struck.old result
        (held_in held.new own.new matrix.new right_hand.new mean.new)
        ticks.new weights.new struck.new }
{
    let years = held[0];
    let closeness = held[1];
    if !is_open(
        years as usize,
        closeness,
        held[2],
        own,
        matrix,
        right_hand,
        mean,
    ) {
        return Err(Reason::NothingOpen.at(0));
    }
    let last = years as u8;
    let left = left_in(struck, last);
    let mut marks = marks_inside(&left, struck);
    check_step(&marks, last, channel, year, column)?;
    marks[place_of(last, channel, year, column)] = 1;
    *struck = marks;
    made_anew(own, matrix, right_hand, mean, ticks, weights, struck, last);
    *held = [years, closeness, 0];
    Ok(())
}
