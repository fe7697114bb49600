// The calls over a session that is a value.
ghost use Rattle.std.specs.Prelude.{◌≡◌};
ghost use Rattle.definitions.specs.Machine.{State};
ghost use Rattle.definitions.specs.Strikes.{step};
ghost use Rattle.holding.specs.State.{state_of};
ghost use Rattle.opening.specs.Opens.{Opens};
ghost use Rattle.judging.specs.Judges.{Judges};
ghost use Rattle.sweeping.specs.Sweeps.{Sweeps};
ghost use Rattle.writing.specs.Writes.{Reads, Pages};
ghost use Rattle.showing.specs.Shows.{Shows};
ghost use Rattle.projecting.specs.Projects.{Projects};
ghost use Rattle.striking.specs.Strikes.{Strikes};
ghost use Rattle.weighing.specs.Weighs.{Weighs};
ghost use Rattle.session.specs.Value.{held_by};

use crate::Session;
use crate::answers::{Judgement, Outcome, Progress, Refusal, Ultimate};
use crate::lent::{
    figures_lent, judge_lent, open_lent, page_lent, read_lent, residues_lent, strike_lent,
    sweep_lent, ultimate_lent,
};
use crate::state::empty;
use chain::arrays::Figures;

// 22, then 1 to 10.
pub fn open(s: Session, file: &[u8]) -> Outcome<()>
    ensures { Opens (held_by s) s.observations file.now result.answer (held_by result.session) result.session.observations }
{
    let mut s = s;
    let mut held = [s.figures.last as u64, s.figures.closeness, s.total];
    let answer = open_lent(
        &mut held,
        &mut s.figures.own,
        &mut s.figures.matrix,
        &mut s.figures.right_hand,
        &mut s.mean,
        &mut s.observations.ticks,
        &mut s.observations.weights,
        &mut s.observations.variances,
        &mut s.observations.struck,
        file,
    );
    s.figures.last = held[0] as usize;
    s.figures.closeness = held[1];
    s.total = held[2];
    Outcome { answer, session: s }
}

// 21, then 1, 2, 4 and 11.
pub fn judge(s: Session, lent: &[u8]) -> Result<Judgement, Refusal>
    ensures { Judges (held_by s) lent.now result }
{
    judge_lent(
        s.figures.last,
        s.figures.closeness,
        s.total,
        &s.figures.own,
        &s.figures.matrix,
        &s.figures.right_hand,
        &s.mean,
        lent,
    )
}

// 21, 12, settled, 23.
pub fn sweep(s: Session, n: u64) -> Outcome<Progress>
    ensures sweeps { Sweeps (held_by s) n result.answer (held_by result.session) }
    ensures observations_value { result.session.observations ≡ s.observations }
{
    let mut s = s;
    let lent = &mut s;
    let answer = sweep_lent(
        lent.figures.last,
        lent.figures.closeness,
        &lent.figures.own,
        &lent.figures.matrix,
        &lent.figures.right_hand,
        &mut lent.mean,
        &mut lent.total,
        n,
    );
    Outcome { answer, session: s }
}

// 21, 24, 13. The record at the front of the buffer; the bytes behind it stay.
pub fn read(s: Session, buffer: &mut [u8]) -> Result<(), Refusal>
    ensures { Reads (held_by s) buffer.old result buffer.new }
{
    read_lent(
        s.figures.last,
        s.figures.closeness,
        s.total,
        &s.figures.own,
        &s.figures.matrix,
        &s.figures.right_hand,
        &s.mean,
        buffer,
    )
}

// 21, 24, 13. The page at the front of the buffer; the bytes behind it stay.
pub fn page(s: Session, buffer: &mut [u8]) -> Result<(), Refusal>
    ensures { Pages (held_by s) buffer.old result buffer.new }
{
    page_lent(
        s.figures.last,
        s.figures.closeness,
        s.total,
        &s.figures.own,
        &s.figures.matrix,
        &s.figures.right_hand,
        &s.mean,
        buffer,
    )
}

// 21, 24, 25. The central ultimate of an accident year.
pub fn ultimate(s: Session, year: u64) -> Result<Ultimate, Refusal>
    ensures { Projects s.observations (held_by s) year result }
{
    ultimate_lent(
        s.figures.last,
        s.figures.closeness,
        s.total,
        &s.figures.own,
        &s.figures.matrix,
        &s.figures.right_hand,
        &s.mean,
        &s.observations.ticks,
        &s.observations.variances,
        year,
    )
}

// 21, then 14, 26, 27. The step of an accident year and a column is out of the paid (channel 0) or the incurred steps (1).
pub fn strike(s: Session, channel: u64, year: u64, column: u64) -> Outcome<()>
    ensures { Strikes (step channel year column) (held_by s) s.observations result.answer
        (held_by result.session) result.session.observations }
{
    let mut s = s;
    let mut held = [s.figures.last as u64, s.figures.closeness, s.total];
    let answer = strike_lent(
        &mut held,
        &mut s.figures.own,
        &mut s.figures.matrix,
        &mut s.figures.right_hand,
        &mut s.mean,
        &mut s.observations.ticks,
        &mut s.observations.weights,
        &mut s.observations.struck,
        channel,
        year,
        column,
    );
    s.figures.last = held[0] as usize;
    s.figures.closeness = held[1];
    s.total = held[2];
    Outcome { answer, session: s }
}

// 21, then 1, 2, 4, 11, then 13. The residues of the record's mean at the front of the buffer; the bytes behind them stay.
pub fn residues<'a>(s: Session, lent: &'a [u8], buffer: &'a mut [u8]) -> Result<(), Refusal>
    ensures { Weighs s.observations (held_by s) lent.now buffer.old result buffer.new }
{
    residues_lent(
        s.figures.last,
        s.figures.closeness,
        s.total,
        &s.figures.own,
        &s.figures.matrix,
        &s.figures.right_hand,
        &s.mean,
        &s.observations.ticks,
        &s.observations.weights,
        &s.observations.struck,
        lent,
        buffer,
    )
}

// 21. The figures that judge and sweep go by, the matrix whole.
pub fn figures(s: Session) -> Result<Figures, Refusal>
    ensures { Shows (held_by s) result }
{
    figures_lent(
        s.figures.last,
        s.figures.closeness,
        s.total,
        &s.figures.own,
        &s.figures.matrix,
        &s.figures.right_hand,
        &s.mean,
    )
}

// Never refuses.
pub fn close(_s: Session) -> Session
    ensures { state_of (held_by result) ≡ State.empty }
{
    empty()
}
