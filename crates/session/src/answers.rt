// What the calls answer.
use crate::Session;
pub use chain::arrays::Figures;
pub use chain::judge::Judgement;
pub use layout::refusals::{Reason, Refusal};
pub use projecting::Ultimate;
pub use sweeping::Progress;

// An answer, with the session afterwards: where the call is refused, the one that it took.
#[derive(Drop)]
pub struct Outcome<T> {
    pub answer: Result<T, Refusal>,
    pub session: Session,
}
