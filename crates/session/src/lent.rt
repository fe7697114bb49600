// The calls over a session whose arrays are lent: the figures of the file (J, closeness, own weights, matrix and right-hand side),
// the mean and the sweeps run since open or the last strike; to `open`, `strike`, `ultimate` and `residues` observations too. A call that
// is not refused changes what it is lent by `&mut` and nothing else.
pub use judging::judge_lent;
pub use opening::open_lent;
pub use projecting::ultimate_lent;
pub use showing::{NO_FIGURES, figures_lent, figures_put};
pub use striking::strike_lent;
pub use sweeping::sweep_lent;
pub use weighing::residues_lent;
pub use writing::{page_lent, read_lent};
