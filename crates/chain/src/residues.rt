// Residues of a mean: A·mean − right-hand side. The matrix is symmetric, so the entries on and below its diagonal are enough: each
// is read once, is tested where it is read, and serves the two residues that it stands in.
ghost use Rattle.std.specs.Prelude.{◌≤◌, nat_abs};
ghost use Rattle.chain.specs.Decides.{Decides};
ghost use Rattle.chain.specs.Fitting.{entry_limit};
ghost use Rattle.chain.specs.Residues.{OfRow, RowTimes, OfMean, TestedOf};

// What an entry off the diagonal may be in size.
const ENTRY_LIMIT: i64 = 2_147_483_647;

// An entry off the diagonal, by its two sides: the compiler makes one test of them.
pub fn entry_fits(entry: i64) -> bool
    ensures { Decides (nat_abs entry ≤ entry_limit) result }
{
    -ENTRY_LIMIT <= entry && entry <= ENTRY_LIMIT
}

// Row k up to its diagonal times the mean, where its entries fit. The residues of the parts before k have the products of the mirrored
// entries added.
fn row_times(
    matrix: &[i64; 961],
    mean: &[i64; 31],
    residues: &mut [i64; 31],
    k: usize,
) -> Option<i64>
    requires { OfRow mean.now residues.old k }
    ensures { RowTimes matrix.now mean.now residues.old k result residues.new }
{
    let row = 31 * k;
    let own = mean[k];
    let mut sum = 0;
    for l in 0..k {
        let entry = matrix[row + l];
        if !entry_fits(entry) {
            return None;
        }
        sum += entry * mean[l];
        residues[l] += entry * own;
    }
    Some(sum)
}

// The residues of a mean, part by part, where every row fits; 0 behind the last part.
pub fn residues<'a>(
    last: usize,
    matrix: &'a [i64; 961],
    right_hand: &'a [i64; 31],
    mean: &'a [i64; 31],
) -> Option<[i64; 31]>
    requires { OfMean last matrix.now right_hand.now mean.now }
    ensures { TestedOf last matrix.now right_hand.now mean.now result }
{
    let mut found = [0i64; 31];
    for k in 0..2 * last + 1 {
        let sum = row_times(matrix, mean, &mut found, k)?;
        found[k] = sum + matrix[31 * k + k] * mean[k] - right_hand[k];
    }
    Some(found)
}
