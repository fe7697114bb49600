// The call `open`, over a session whose arrays are lent: the observations of the file, the figures that are made of them and the prior
// means are held from then on. No step is struck.
#![tactic(auto)]

ghost use Rattle.holding.specs.State.{held_in};
ghost use Rattle.observations.specs.Arrays.{observations_at};
ghost use Rattle.opening.specs.Opens.{Opens};

use figures::figures_in;
use holding::bounds::is_open;
use layout::checks::file::check_file;
use layout::places::last_year;
use layout::refusals::{Reason, Refusal};
use observations::means::start_mean;
use observations::observe;
use readings::closeness_of;

// 22, then 1 to 10. `held` has J, the closeness and the sweeps run since open or the last strike.
pub fn open_lent<'a>(
    held: &'a mut [u64; 3],
    own: &'a mut [u64; 31],
    matrix: &'a mut [i64; 961],
    right_hand: &'a mut [i64; 31],
    mean: &'a mut [i64; 31],
    ticks: &'a mut [i64; 303],
    weights: &'a mut [u64; 77],
    variances: &'a mut [u64; 31],
    struck: &'a mut [u8; 496],
    file: &'a [u8],
) -> Result<(), Refusal>
    ensures { Opens
        (held_in held.old own.old matrix.old right_hand.old mean.old)
        (observations_at ticks.old weights.old variances.old struck.old)
        file.now result
        (held_in held.new own.new matrix.new right_hand.new mean.new)
        (observations_at ticks.new weights.new variances.new struck.new) }
{
    if is_open(
        held[0] as usize,
        held[1],
        held[2],
        own,
        matrix,
        right_hand,
        mean,
    ) {
        return Err(Reason::FileOpen.at(0));
    }
    check_file(file)?;
    let last = last_year(file);
    observe(ticks, weights, variances, struck, file);
    figures_in(own, matrix, right_hand, ticks, weights, struck, last);
    start_mean(mean, ticks, last);
    let numbers = [last as u64, closeness_of(file), 0];
    *held = numbers;
    Ok(())
}
