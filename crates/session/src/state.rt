// The empty session.
ghost use Rattle.std.specs.Prelude.{◌≡◌};
ghost use Rattle.definitions.specs.Machine.{State};
ghost use Rattle.holding.specs.State.{state_of};
ghost use Rattle.session.specs.Value.{held_by};

use crate::Session;
use chain::arrays::Figures;
use observations::Observations;

// Nothing is open.
pub fn empty() -> Session
    ensures { state_of (held_by result) ≡ State.empty }
{
    let figures = Figures {
        last: 0,
        closeness: 0,
        own: [0; 31],
        matrix: [0; 961],
        right_hand: [0; 31],
    };
    let observations = Observations {
        ticks: [0; 303],
        weights: [0; 77],
        variances: [0; 31],
        struck: [0; 496],
    };
    Session {
        observations: observations,
        figures: figures,
        mean: [0; 31],
        total: 0,
    }
}
