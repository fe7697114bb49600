// The call `figures`, over a session whose arrays are lent: the figures that judge and sweep go by, the matrix whole.
#![tactic(auto)]

ghost use Rattle.holding.specs.State.{held_at};
ghost use Rattle.showing.specs.Shows.{Shows, Puts};

use crate::shown::{front, parts_shown};
use chain::arrays::Figures;
use layout::refusals::{Reason, Refusal};

mod shown;

// What stands for figures where none are shown.
pub const NO_FIGURES: Figures = Figures {
    last: 0,
    closeness: 0,
    own: [0; 31],
    matrix: [0; 961],
    right_hand: [0; 31],
};

// 21. The session is as it was. The matrix is shown whole, and zeros outside the parts 0..2J.
pub fn figures_lent<'a>(
    last: usize,
    closeness: u64,
    total: u64,
    own: &'a [u64; 31],
    matrix: &'a [i64; 961],
    right_hand: &'a [i64; 31],
    mean: &'a [i64; 31],
) -> Result<Figures, Refusal>
    ensures { Shows
        (held_at last closeness total own.now matrix.now right_hand.now mean.now)
        result }
{
    let mut figures = NO_FIGURES;
    figures_put(
        last,
        closeness,
        total,
        own,
        matrix,
        right_hand,
        mean,
        &mut figures,
    )?;
    Ok(figures)
}

// The same in a place that is lent, whatever stands there: zeros where nothing is shown. So who passes them on copies the matrix once,
// where an answer that has figures or a refusal costs a copy more at each hand.
pub fn figures_put<'a>(
    last: usize,
    closeness: u64,
    total: u64,
    own: &'a [u64; 31],
    matrix: &'a [i64; 961],
    right_hand: &'a [i64; 31],
    mean: &'a [i64; 31],
    figures: &'a mut Figures,
) -> Result<(), Refusal>
    ensures { Puts
        (held_at last closeness total own.now matrix.now right_hand.now mean.now)
        result figures.new }
{
    *figures = NO_FIGURES;
    let Some(count) = parts_shown(
        last,
        closeness,
        total,
        own,
        matrix,
        right_hand,
        mean,
        &mut figures.matrix,
    ) else {
        return Err(Reason::NothingOpen.at(0));
    };
    let weights = front(count, own, 0);
    let targets = front(count, right_hand, 0);
    figures.last = last;
    figures.closeness = closeness;
    figures.own = weights;
    figures.right_hand = targets;
    Ok(())
}
