// The central ultimate from what a session keeps: the latest logarithms of an accident year, the mean's steps still to come, and their
// variances. Both sides of the figure, paid and incurred, are found by the same function.
ghost use Rattle.std.specs.Prelude.{◌+◌, ◌≤◌};
ghost use Rattle.projecting.specs.Central.{OfRun, PartSum, VarianceSum, OfSide, SideOf, OfSides, Weighted, OfYear, CentralOf};

use crate::Ultimate;
use arithmetic::wide::{divided, product, sum};
use layout::places::cells_of;
use observations::kept::{kept_logarithm, kept_variance};
use row_starts::row_start;
use scales::{Ticks, Variance};

// An ultimate's logarithm as one block has it, and the variance of what is still to come there.
#[derive(Drop)]
pub struct Side {
    pub ultimate: Ticks,
    pub variance: Variance,
}

// Σ of so many parts of the mean, from the first one on.
fn part_sum(mean: &[i64; 31], first: usize, count: usize) -> Ticks
    requires { OfRun mean.now first count }
    ensures { PartSum mean.now first count result }
{
    let mut total = 0i64;
    for m in 0..count {
        total += mean[first + m];
    }
    Ticks(total)
}

// Σ of their variances.
fn variance_sum(variances: &[u64; 31], first: usize, count: usize) -> Variance
    requires { first + count ≤ 31 }
    ensures { VarianceSum variances.now first count result }
{
    let mut total = 0u64;
    for m in 0..count {
        let next = kept_variance(variances, first + m);
        total += next.0;
    }
    Variance(total)
}

fn side_of<'a>(
    mean: &'a [i64; 31],
    ticks: &'a [i64; 303],
    variances: &'a [u64; 31],
    cell: usize,
    first: usize,
    count: usize,
) -> Side
    requires { OfSide mean.now cell first count }
    ensures { SideOf mean.now ticks.now variances.now cell first count result }
{
    let known = kept_logarithm(ticks, cell);
    let expected = part_sum(mean, first, count);
    let variance = variance_sum(variances, first, count);
    Side {
        ultimate: Ticks(known.0 + expected.0),
        variance,
    }
}

// Each side weighted by the variance of the other. The products are below 2^74 in size, and so of two words.
fn weighted(paid: Side, incurred: Side) -> Ultimate
    requires { OfSides paid incurred }
    ensures { Weighted paid incurred result }
{
    let of_paid = product(incurred.variance.0, paid.ultimate.0);
    let of_incurred = product(paid.variance.0, incurred.ultimate.0);
    let divisor = paid.variance.0 + incurred.variance.0;
    let found = divided(sum(of_paid, of_incurred), divisor);
    Ultimate {
        floor: found.floor,
        remainder: found.rest,
        divisor,
    }
}

// Of accident year `year`, whose last known development year is J − year.
pub fn central_ultimate<'a>(
    last: usize,
    mean: &'a [i64; 31],
    ticks: &'a [i64; 303],
    variances: &'a [u64; 31],
    year: usize,
) -> Ultimate
    requires { OfYear last mean.now year }
    ensures { CentralOf last mean.now ticks.now variances.now year result }
{
    let known = last - year;
    let years = last as u8;
    let cell = row_start(years, year) + known;
    let paid = side_of(mean, ticks, variances, cell, known + 1, year);
    let incurred = side_of(
        mean,
        ticks,
        variances,
        cells_of(years) + cell,
        last + 1 + known,
        year,
    );
    weighted(paid, incurred)
}
