// The test of what a session holds. No value carries a proof, so every call tests what its arithmetic needs; a session that
// fails it counts as empty. None that `open` made ever fails it. The matrix's entries off the diagonal are tested where
// they are multiplied (`chain::residues`) or shown (`showing`), or where neither is done here; all else here.
ghost use Rattle.std.specs.Prelude.{◌<◌};
ghost use Rattle.chain.specs.Decides.{Decides};
ghost use Rattle.chain.specs.Residues.{RowFits, RowsFit};
ghost use Rattle.holding.specs.Bounds.{PartFits, PartsFit, OfBounds, FrameFits};
ghost use Rattle.holding.specs.State.{Fits, held_at};

use chain::residues::entry_fits;

// A part's own weight, its diagonal entry, its right-hand side and its mean.
fn part_fits(own: u64, diagonal: i64, right_hand: i64, mean: i64) -> bool
    ensures { Decides (PartFits own diagonal right_hand mean) result }
{
    if 8589934592 < own {
        return false;
    }
    if diagonal < 1 {
        return false;
    }
    if 8589934592 < diagonal {
        return false;
    }
    if 576460752303423488 < right_hand.unsigned_abs() {
        return false;
    }
    if 67108864 < mean.unsigned_abs() {
        return false;
    }
    true
}

fn parts_fit<'a>(
    count: usize,
    own: &'a [u64; 31],
    matrix: &'a [i64; 961],
    right_hand: &'a [i64; 31],
    mean: &'a [i64; 31],
) -> bool
    requires { OfBounds count }
    ensures { Decides (PartsFit own.now matrix.now right_hand.now mean.now count) result }
{
    for k in 0..count {
        if !part_fits(own[k], matrix[31 * k + k], right_hand[k], mean[k]) {
            return false;
        }
    }
    true
}

// Whether something is held, and all but the entries off the diagonal is inside the bounds.
pub fn frame_fits<'a>(
    last: usize,
    closeness: u64,
    total: u64,
    own: &'a [u64; 31],
    matrix: &'a [i64; 961],
    right_hand: &'a [i64; 31],
    mean: &'a [i64; 31],
) -> bool
    ensures { Decides
        (FrameFits last closeness total own.now matrix.now right_hand.now mean.now)
        result }
{
    if last < 1 {
        return false;
    }
    if 15 < last {
        return false;
    }
    if 65536 < closeness {
        return false;
    }
    if 4096 < total {
        return false;
    }
    parts_fit(2 * last + 1, own, matrix, right_hand, mean)
}

// The entries of row k before the diagonal.
fn row_fits(matrix: &[i64; 961], k: usize) -> bool
    requires { k < 31 }
    ensures { Decides (RowFits matrix.now k) result }
{
    let row = 31 * k;
    for l in 0..k {
        let entry = matrix[row + l];
        if !entry_fits(entry) {
            return false;
        }
    }
    true
}

fn rows_fit(matrix: &[i64; 961], count: usize) -> bool
    requires { OfBounds count }
    ensures { Decides (RowsFit matrix.now count) result }
{
    for k in 0..count {
        if !row_fits(matrix, k) {
            return false;
        }
    }
    true
}

// Whether a file is open. A call that multiplies the matrix tests its rows there; this is for one that does not.
pub fn is_open<'a>(
    last: usize,
    closeness: u64,
    total: u64,
    own: &'a [u64; 31],
    matrix: &'a [i64; 961],
    right_hand: &'a [i64; 31],
    mean: &'a [i64; 31],
) -> bool
    ensures { Decides
        (Fits (held_at last closeness total own.now matrix.now right_hand.now mean.now))
        result }
{
    if !frame_fits(last, closeness, total, own, matrix, right_hand, mean) {
        return false;
    }
    rows_fit(matrix, 2 * last + 1)
}
