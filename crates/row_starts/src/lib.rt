// Where the rows of a block start, by document 02's constant table.
#![tactic(auto)]

ghost use Rattle.std.specs.Prelude.{◌≡◌, ◌≤◌};
ghost use Rattle.definitions.specs.Layout.{row_start};
ghost use Rattle.row_starts.specs.Starts.{Starts};

// Entry 16·J + year, for J = 0..15 and year 0..15: the cells of a block before the row of the year; 0 where the year exceeds J.
const ROW_STARTS: [u8; 256] = [
    // J = 0
    0, 0, 0, 0, 0, 0, 0, 0, 0, 0, 0, 0, 0, 0, 0, 0,
    // J = 1
    0, 2, 0, 0, 0, 0, 0, 0, 0, 0, 0, 0, 0, 0, 0, 0,
    // J = 2
    0, 3, 5, 0, 0, 0, 0, 0, 0, 0, 0, 0, 0, 0, 0, 0,
    // J = 3
    0, 4, 7, 9, 0, 0, 0, 0, 0, 0, 0, 0, 0, 0, 0, 0,
    // J = 4
    0, 5, 9, 12, 14, 0, 0, 0, 0, 0, 0, 0, 0, 0, 0, 0,
    // J = 5
    0, 6, 11, 15, 18, 20, 0, 0, 0, 0, 0, 0, 0, 0, 0, 0,
    // J = 6
    0, 7, 13, 18, 22, 25, 27, 0, 0, 0, 0, 0, 0, 0, 0, 0,
    // J = 7
    0, 8, 15, 21, 26, 30, 33, 35, 0, 0, 0, 0, 0, 0, 0, 0,
    // J = 8
    0, 9, 17, 24, 30, 35, 39, 42, 44, 0, 0, 0, 0, 0, 0, 0,
    // J = 9
    0, 10, 19, 27, 34, 40, 45, 49, 52, 54, 0, 0, 0, 0, 0, 0,
    // J = 10
    0, 11, 21, 30, 38, 45, 51, 56, 60, 63, 65, 0, 0, 0, 0, 0,
    // J = 11
    0, 12, 23, 33, 42, 50, 57, 63, 68, 72, 75, 77, 0, 0, 0, 0,
    // J = 12
    0, 13, 25, 36, 46, 55, 63, 70, 76, 81, 85, 88, 90, 0, 0, 0,
    // J = 13
    0, 14, 27, 39, 50, 60, 69, 77, 84, 90, 95, 99, 102, 104, 0, 0,
    // J = 14
    0, 15, 29, 42, 54, 65, 75, 84, 92, 99, 105, 110, 114, 117, 119, 0,
    // J = 15
    0, 16, 31, 45, 58, 70, 81, 91, 100, 108, 115, 121, 126, 130, 133, 135,
];

// The table's entries for a J, year 0 first. The whole table is set up where it is read, so whoever wants many rows asks once.
pub fn starts_of(last: u8) -> [usize; 16]
    requires { last ≤ 15 }
    ensures { Starts last result }
{
    let table = ROW_STARTS;
    let years = last as usize;
    let mut starts = [0usize; 16];
    for year in 0..16 {
        let entry = table[16 * years + year];
        starts[year] = entry as usize;
    }
    starts
}

// Cells of a block before the row of a year.
pub fn row_start(last: u8, year: usize) -> usize
    requires { (last ≤ 15) × (year ≤ last) }
    ensures { result ≡ row_start last year }
{
    let starts = starts_of(last);
    starts[year]
}
