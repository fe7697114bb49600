// What is shown of an open file's figures. A session counts the entries on and below the diagonal alone, and nothing behind the
// parts 0..2J, `count` of them: what is shown has both halves of the matrix, and zeros behind the parts.
ghost use Rattle.std.specs.Prelude.{◌≡◌};
ghost use Rattle.holding.specs.State.{held_at};
ghost use Rattle.showing.specs.ShowCall.{OfRow, OfMatrix, RowShown, MatrixShown, Zeros, PartsShown};
ghost use Rattle.showing.specs.Shown.{OfParts, front_shown};

use chain::residues::entry_fits;
use holding::bounds::frame_fits;

// The numbers of so many parts, and the empty one behind them.
pub fn front<T: Copy>(count: usize, numbers: &[T; 31], empty: T) -> [T; 31]
    requires { OfParts count }
    ensures { result ≡ front_shown count empty numbers.now }
{
    let mut shown = [empty; 31];
    shown[..count].copy_from_slice(&numbers[..count]);
    shown
}

// Row k up to its diagonal, each entry also where it is mirrored. An entry off the diagonal is tested where it is read.
fn row_shown(matrix: &[i64; 961], shown: &mut [i64; 961], k: usize) -> Option<()>
    requires { OfRow matrix.now shown.old k }
    ensures { RowShown matrix.now k result shown.new }
{
    let row = 31 * k;
    for l in 0..k {
        let entry = matrix[row + l];
        if !entry_fits(entry) {
            return None;
        }
        shown[row + l] = entry;
        shown[31 * l + k] = entry;
    }
    shown[row + k] = matrix[row + k];
    Some(())
}

// The matrix of so many parts, in an array of zeros, where every row fits: one pass tests it and shows it. Where a row does not fit the
// array is all zeros again.
pub fn matrix_shown(count: usize, matrix: &[i64; 961], shown: &mut [i64; 961]) -> Option<()>
    requires { OfMatrix count shown.old }
    ensures { MatrixShown count matrix.now result shown.new }
{
    for k in 0..count {
        if row_shown(matrix, shown, k).is_none() {
            *shown = [0; 961];
            return None;
        }
    }
    Some(())
}

// How many parts are shown, where a file is open: all of them. Their matrix is put in an array of zeros, which
// stays one where nothing is shown.
pub fn parts_shown<'a>(
    last: usize,
    closeness: u64,
    total: u64,
    own: &'a [u64; 31],
    matrix: &'a [i64; 961],
    right_hand: &'a [i64; 31],
    mean: &'a [i64; 31],
    shown: &'a mut [i64; 961],
) -> Option<usize>
    requires { Zeros shown.old }
    ensures { PartsShown
        (held_at last closeness total own.now matrix.now right_hand.now mean.now)
        result shown.new }
{
    if !frame_fits(last, closeness, total, own, matrix, right_hand, mean) {
        return None;
    }
    let count = 2 * last + 1;
    matrix_shown(count, matrix, shown)?;
    Some(count)
}
