// The logarithms of a file's amounts.
ghost use Rattle.std.specs.Prelude.{◌+◌};
ghost use Rattle.observations.specs.Reading.{OfCells, CellsTo, OfFour, Logarithms};

use layout::places::{cells_of, last_year};
use readings::amount_of;
use scales::{four_logarithms_of, logarithm_of};

// Those of cells c to c + 3, side by side; those before them are there.
fn four_cells<'a>(ticks: &'a mut [i64; 303], file: &'a [u8], c: usize)
    requires { OfFour file.now c ticks.old }
    ensures { CellsTo (c + 4) file.now ticks.new }
{
    let four = four_logarithms_of(
        amount_of(file, c),
        amount_of(file, c + 1),
        amount_of(file, c + 2),
        amount_of(file, c + 3),
    );
    ticks[c] = four.first.0;
    ticks[c + 1] = four.second.0;
    ticks[c + 2] = four.third.0;
    ticks[c + 3] = four.fourth.0;
}

// By cell, paid block first.
pub fn read_logarithms<'a>(ticks: &'a mut [i64; 303], file: &'a [u8])
    requires { OfCells file.now ticks.old }
    ensures { Logarithms file.now ticks.new }
{
    let count = 2 * cells_of(last_year(file));
    let fours = count / 4;
    for n in 0..fours {
        four_cells(ticks, file, 4 * n);
    }
    for c in 4 * fours..count {
        ticks[c] = logarithm_of(amount_of(file, c)).0;
    }
}
