// The figures that judge and sweep go by, made of the arrays of observations: own weights, the precision matrix and the right-hand side.
// They are the specification's, of every chain that the arrays hold; a struck step counts for nothing.
#![tactic(auto)]

ghost use Rattle.figures.specs.Gathered.{OfObservations, FiguresOf};

use crate::matrix::fill_matrix;
use crate::right_hand::{Columns, right_hand_of};
use crate::weights::{own_weights, shares};
use observations::strikes::left_in;
use row_starts::starts_of;

pub mod matrix;
pub mod right_hand;
pub mod weights;

// In the arrays that are lent for them.
pub fn figures_in<'a>(
    own: &'a mut [u64; 31],
    matrix: &'a mut [i64; 961],
    right_hand: &'a mut [i64; 31],
    ticks: &'a [i64; 303],
    weights: &'a [u64; 77],
    struck: &'a [u8; 496],
    last: u8,
)
    requires { OfObservations ticks.now weights.now last }
    ensures { FiguresOf ticks.now weights.now struck.now last
        own.new matrix.new right_hand.new }
{
    let left = left_in(struck, last);
    let weighed = own_weights(weights, &left, last);
    let shared = shares(weights, last);
    let columns = Columns {
        ticks,
        starts: starts_of(last),
        struck,
        last,
    };
    let sums = columns.column_sums();
    let ratios = columns.ratio_sums(weights);
    let targets = right_hand_of(weights, ticks, &sums, &ratios, last);
    fill_matrix(matrix, &weighed, &shared, last);
    *own = weighed;
    *right_hand = targets;
}
