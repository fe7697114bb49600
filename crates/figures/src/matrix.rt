// The precision matrix, flat: row k, column l at 31·k + l, filled from the own weights and the sums of g.
ghost use Rattle.std.specs.Prelude.{◌≡◌, ◌*◌};
ghost use Rattle.definitions.specs.Layout.{parts};
ghost use Rattle.definitions.specs.Matrix.{part_by_index};
ghost use Rattle.laws.specs.Ranks.{rank_of};
ghost use Rattle.figures.specs.Weights.{OfPart};
ghost use Rattle.figures.specs.Entries.{
  OfTurned,
  Turned,
  OfRun,
  run_of,
  Stretch,
  OfShares,
  shared_by,
  OfFill,
  RowOf,
  OfMatrix,
  MatrixOf,
};

// Φ_j has the rank j and Ψ_j the rank j + 1: a part shares in the first g, as many as its rank.
pub fn rank_of(last: u8, k: usize) -> usize
    requires { OfPart last k }
    ensures { result ≡ rank_of (part_by_index last k) }
{
    let years = last as usize;
    if k <= years { k } else { k - years }
}

// The sums of g with the sign turned: what a Φ and a Ψ share is subtracted.
fn turned_shares(shares: &[i64; 16], last: u8) -> [i64; 16]
    requires { OfTurned shares.now last }
    ensures { Turned shares.now last result }
{
    let count = last as usize + 1;
    let mut turned = [0i64; 16];
    for n in 0..count {
        turned[n] = -shares[n];
    }
    turned
}

// `count` cells from `at` on: what a part of this rank shares with parts whose ranks go up from `first`.
fn fill_run<'a>(
    matrix: &'a mut [i64; 961],
    shares: &'a [i64; 16],
    rank: usize,
    at: usize,
    first: usize,
    count: usize,
)
    requires { OfRun matrix.old shares.now rank at first count }
    ensures { Stretch count at (run_of shares.now rank first) matrix.old matrix.new }
{
    for n in 0..count {
        matrix[at + n] = shares[rank.min(first + n)];
    }
}

// Row k, but for the own weight: the sums of g signed for the Φ, then signed for the Ψ. The rows before it stay.
fn fill_shares<'a>(
    matrix: &'a mut [i64; 961],
    phis: &'a [i64; 16],
    psis: &'a [i64; 16],
    last: u8,
    k: usize,
)
    requires { OfShares matrix.old phis.now psis.now last k }
    ensures { Stretch (parts last) (31 * k) (shared_by phis.now psis.now last k)
        matrix.old matrix.new }
{
    let years = last as usize;
    let row = 31 * k;
    let rank = rank_of(last, k);
    fill_run(matrix, phis, rank, row, 0, years + 1);
    fill_run(matrix, psis, rank, row + years + 1, 1, years);
}

// Row k of the matrix: what is shared is added between parts of one kind, and the own weight is added on the diagonal.
fn fill_row<'a>(
    matrix: &'a mut [i64; 961],
    own: &'a [u64; 31],
    shares: &'a [i64; 16],
    turned: &'a [i64; 16],
    last: u8,
    k: usize,
)
    requires { OfFill matrix.old own.now shares.now turned.now last k }
    ensures { RowOf matrix.old own.now shares.now last k matrix.new }
{
    if k <= last as usize {
        fill_shares(matrix, shares, turned, last, k);
    } else {
        fill_shares(matrix, turned, shares, last, k);
    }
    matrix[32 * k] += own[k] as i64;
}

// The whole matrix, zeros behind its parts.
pub fn fill_matrix<'a>(
    matrix: &'a mut [i64; 961],
    own: &'a [u64; 31],
    shares: &'a [i64; 16],
    last: u8,
)
    requires { OfMatrix own.now shares.now last }
    ensures { MatrixOf own.now shares.now last matrix.new }
{
    let count = 2 * (last as usize) + 1;
    let turned = turned_shares(shares, last);
    *matrix = [0; 961];
    for k in 0..count {
        fill_row(matrix, own, shares, &turned, last, k);
    }
}
