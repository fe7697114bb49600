// The figures of a file that the calls use, in arrays of the largest size.

// Row k, column l of the matrix A is at 31·k + l; every array is 0 outside the parts 0..2J. The matrix is symmetric and filled whole;
// what is computed from it reads the entries on and below the diagonal.
#[derive(Clone, Copy)]
pub struct Figures {
    pub last: usize,
    pub closeness: u64,
    pub own: [u64; 31],
    pub matrix: [i64; 961],
    pub right_hand: [i64; 31],
}
