// What C calls. `held` has J (0 while nothing is open), the closeness and the sweeps run since open or the last strike.
ghost use Rattle.observations.specs.Arrays.{observations_at};
ghost use Rattle.holding.specs.State.{held_in};
ghost use Rattle.desk.specs.Calls.{Opens, StrikesLent, Judges, Sweeps, Reads, Pages, ProjectsLent, WeighsLent, Shows, Closes, ShowsRow};

use readings::rows::{row_place, row_told};
use session::lent::{
    NO_FIGURES, figures_put, judge_lent, open_lent, page_lent, read_lent, residues_lent,
    strike_lent, sweep_lent, ultimate_lent,
};
use telling::{
    Judged, NONE, Projected, Refusal, RowShown, Swept, System, done_told, judge_told, row_as,
    sweep_told, system_of, ultimate_told,
};

// 22, then 1 to 10.
#[unsafe(no_mangle)]
pub extern "C" fn desk_open_lent<'a>(
    held: &'a mut [u64; 3],
    own: &'a mut [u64; 31],
    matrix: &'a mut [i64; 961],
    right_hand: &'a mut [i64; 31],
    mean: &'a mut [i64; 31],
    ticks: &'a mut [i64; 303],
    weights: &'a mut [u64; 77],
    variances: &'a mut [u64; 31],
    struck: &'a mut [u8; 496],
    file: &'a [u8],
) -> Refusal
    ensures { Opens
        (held_in held.old own.old matrix.old right_hand.old mean.old)
        (observations_at ticks.old weights.old variances.old struck.old)
        file.now result
        (held_in held.new own.new matrix.new right_hand.new mean.new)
        (observations_at ticks.new weights.new variances.new struck.new) }
{
    done_told(open_lent(
        held, own, matrix, right_hand, mean, ticks, weights, variances, struck, file,
    ))
}

// 21, then 1, 2, 4 and 11.
#[unsafe(no_mangle)]
pub extern "C" fn desk_judge_lent<'a>(
    held: &'a [u64; 3],
    own: &'a [u64; 31],
    matrix: &'a [i64; 961],
    right_hand: &'a [i64; 31],
    mean: &'a [i64; 31],
    lent: &'a [u8],
) -> Judged
    ensures { Judges
        (held_in held.now own.now matrix.now right_hand.now mean.now)
        lent.now result }
{
    judge_told(judge_lent(
        held[0] as usize,
        held[1],
        held[2],
        own,
        matrix,
        right_hand,
        mean,
        lent,
    ))
}

// 21, 12, settled, 23.
#[unsafe(no_mangle)]
pub extern "C" fn desk_sweep_lent<'a>(
    held: &'a mut [u64; 3],
    own: &'a [u64; 31],
    matrix: &'a [i64; 961],
    right_hand: &'a [i64; 31],
    mean: &'a mut [i64; 31],
    n: u64,
) -> Swept
    ensures { Sweeps
        (held_in held.old own.now matrix.now right_hand.now mean.old)
        n result
        (held_in held.new own.now matrix.now right_hand.now mean.new) }
{
    let last = held[0];
    let closeness = held[1];
    let mut total = held[2];
    let answer = sweep_lent(
        last as usize,
        closeness,
        own,
        matrix,
        right_hand,
        mean,
        &mut total,
        n,
    );
    let numbers = [last, closeness, total];
    *held = numbers;
    sweep_told(answer)
}

// 21, 24, 13.
#[unsafe(no_mangle)]
pub extern "C" fn desk_read_lent<'a>(
    held: &'a [u64; 3],
    own: &'a [u64; 31],
    matrix: &'a [i64; 961],
    right_hand: &'a [i64; 31],
    mean: &'a [i64; 31],
    buffer: &'a mut [u8],
) -> Refusal
    ensures { Reads
        (held_in held.now own.now matrix.now right_hand.now mean.now)
        buffer.old result buffer.new }
{
    done_told(read_lent(
        held[0] as usize,
        held[1],
        held[2],
        own,
        matrix,
        right_hand,
        mean,
        buffer,
    ))
}

// 21, 24, 13.
#[unsafe(no_mangle)]
pub extern "C" fn desk_page_lent<'a>(
    held: &'a [u64; 3],
    own: &'a [u64; 31],
    matrix: &'a [i64; 961],
    right_hand: &'a [i64; 31],
    mean: &'a [i64; 31],
    buffer: &'a mut [u8],
) -> Refusal
    ensures { Pages
        (held_in held.now own.now matrix.now right_hand.now mean.now)
        buffer.old result buffer.new }
{
    done_told(page_lent(
        held[0] as usize,
        held[1],
        held[2],
        own,
        matrix,
        right_hand,
        mean,
        buffer,
    ))
}

// 21, 24, 25.
#[unsafe(no_mangle)]
pub extern "C" fn desk_ultimate_lent<'a>(
    held: &'a [u64; 3],
    own: &'a [u64; 31],
    matrix: &'a [i64; 961],
    right_hand: &'a [i64; 31],
    mean: &'a [i64; 31],
    ticks: &'a [i64; 303],
    variances: &'a [u64; 31],
    year: u64,
) -> Projected
    ensures { ProjectsLent ticks.now variances.now
        (held_in held.now own.now matrix.now right_hand.now mean.now)
        year result }
{
    ultimate_told(ultimate_lent(
        held[0] as usize,
        held[1],
        held[2],
        own,
        matrix,
        right_hand,
        mean,
        ticks,
        variances,
        year,
    ))
}

// 21, then 14, 26, 27.
#[unsafe(no_mangle)]
pub extern "C" fn desk_strike_lent<'a>(
    held: &'a mut [u64; 3],
    own: &'a mut [u64; 31],
    matrix: &'a mut [i64; 961],
    right_hand: &'a mut [i64; 31],
    mean: &'a mut [i64; 31],
    ticks: &'a mut [i64; 303],
    weights: &'a mut [u64; 77],
    struck: &'a mut [u8; 496],
    channel: u64,
    year: u64,
    column: u64,
) -> Refusal
    ensures { StrikesLent channel year column
        (held_in held.old own.old matrix.old right_hand.old mean.old)
        ticks.old weights.old struck.old result
        (held_in held.new own.new matrix.new right_hand.new mean.new)
        ticks.new weights.new struck.new }
{
    done_told(strike_lent(
        held, own, matrix, right_hand, mean, ticks, weights, struck, channel, year, column,
    ))
}

// 21, then 1, 2, 4, 11, then 13.
#[unsafe(no_mangle)]
pub extern "C" fn desk_residues_lent<'a>(
    held: &'a [u64; 3],
    own: &'a [u64; 31],
    matrix: &'a [i64; 961],
    right_hand: &'a [i64; 31],
    mean: &'a [i64; 31],
    ticks: &'a [i64; 303],
    weights: &'a [u64; 77],
    struck: &'a [u8; 496],
    record: &'a [u8],
    buffer: &'a mut [u8],
) -> Refusal
    ensures { WeighsLent ticks.now weights.now struck.now
        (held_in held.now own.now matrix.now right_hand.now mean.now)
        «record».now buffer.old result buffer.new }
{
    done_told(residues_lent(
        held[0] as usize,
        held[1],
        held[2],
        own,
        matrix,
        right_hand,
        mean,
        ticks,
        weights,
        struck,
        record,
        buffer,
    ))
}

// 21.
#[unsafe(no_mangle)]
pub extern "C" fn desk_figures_lent<'a>(
    held: &'a [u64; 3],
    own: &'a [u64; 31],
    matrix: &'a [i64; 961],
    right_hand: &'a [i64; 31],
    mean: &'a [i64; 31],
) -> System
    ensures { Shows
        (held_in held.now own.now matrix.now right_hand.now mean.now)
        result }
{
    let mut figures = NO_FIGURES;
    let answer = figures_put(
        held[0] as usize,
        held[1],
        held[2],
        own,
        matrix,
        right_hand,
        mean,
        &mut figures,
    );
    system_of(done_told(answer), figures)
}

// Never refuses: with J = 0 nothing is open, whatever the arrays hold.
#[unsafe(no_mangle)]
pub extern "C" fn desk_close_lent(held: &mut [u64; 3])
    ensures { Closes held.new }
{
    let nothing = [0u64, 0u64, 0u64];
    *held = nothing;
}

// 1 to 10, 14, 15. Needs no session.
#[unsafe(no_mangle)]
pub extern "C" fn desk_row(file: &[u8], channel: u64, year: u64) -> RowShown
    ensures { ShowsRow file.now channel year result }
{
    if let Err(refusal) = row_told(file, channel as usize, year as usize) {
        return row_as(refusal.into(), 0, 0);
    }
    let found = row_place(file, channel as usize, year as usize);
    row_as(NONE, found.start, found.length)
}
