// The answers as C sees them. A refusal's number is never 0, so 0 says that the call did its job.
#![tactic(auto)]

ghost use Rattle.std.specs.Prelude.{◌≡◌};
ghost use Rattle.layout.specs.Refusals.{number_of};
ghost use Rattle.opening.specs.Opens.{of_open};
ghost use Rattle.judging.specs.Judges.{of_judge};
ghost use Rattle.sweeping.specs.Sweeps.{of_sweep};
ghost use Rattle.writing.specs.Writes.{of_write};
ghost use Rattle.projecting.specs.Projects.{of_project};
ghost use Rattle.striking.specs.Strikes.{of_strike};
ghost use Rattle.telling.specs.declared.Refusal.{Refusal};
ghost use Rattle.telling.specs.Told.{of_reason, answered, shown_or_told, refusal_told, judge_told, sweep_told, system_of, system_told, ultimate_told};

use chain::arrays::Figures;
use chain::judge::Judgement;
use layout::refusals;
use projecting::Ultimate;
use sweeping::Progress;

#[repr(C)]
#[derive(Clone, Copy)]
pub struct Refusal {
    pub number: u64,
    pub place: u64,
}

// Passed (1), or not (0) with the first part that fails.
#[repr(C)]
#[derive(Clone, Copy)]
pub struct Judged {
    pub refusal: Refusal,
    pub passed: u64,
    pub part: u64,
}

// Settled (1) or going (0), with the sweeps run since open or the last strike.
#[repr(C)]
#[derive(Clone, Copy)]
pub struct Swept {
    pub refusal: Refusal,
    pub settled: u64,
    pub total: u64,
}

// The row is `length` bytes of the file from `start` on; none where it is refused.
#[repr(C)]
#[derive(Clone, Copy)]
pub struct RowShown {
    pub refusal: Refusal,
    pub start: u64,
    pub length: u64,
}

// A central ultimate in ticks: floor and remainder over the divisor.
#[repr(C)]
#[derive(Clone, Copy)]
pub struct Projected {
    pub refusal: Refusal,
    pub floor: i64,
    pub remainder: u64,
    pub divisor: u64,
}

// The figures of the open file, in arrays of the largest size: row k, column l of the matrix at 31·k + l.
#[repr(C)]
#[derive(Clone, Copy)]
pub struct System {
    pub refusal: Refusal,
    pub last: u64,
    pub closeness: u64,
    pub own: [u64; 31],
    pub matrix: [i64; 961],
    pub right_hand: [i64; 31],
}

impl From<refusals::Refusal> for Refusal {
    ghost from_gives = { λ r told. told ≡ record { number = number_of r.reason; place = r.place } };

    fn from(r: refusals::Refusal) -> Refusal {
        refusal_of(r.reason.number(), r.place)
    }
}

// A refusal that C can be told, by its number and its place.
pub trait Told {
    ghost told: { Self → Refusal };

    fn told(self) -> Refusal
        ensures { result ≡ told self };
}

impl Told for refusals::Refusal {
    ghost told = { of_reason };

    fn told(self) -> Refusal {
        self.into()
    }
}

// One of any number.
impl Told for Refusal {
    ghost told = { λ r. r };

    fn told(self) -> Refusal {
        Refusal {
            number: self.number,
            place: self.place,
        }
    }
}

pub fn refusal_of(number: u64, place: usize) -> Refusal
    ensures { result ≡ record { number = number; place = place } }
{
    Refusal {
        number,
        place: place as u64,
    }
}

// The call did its job.
pub const NONE: Refusal = Refusal {
    number: 0,
    place: 0,
};

fn judged_as(refusal: Refusal, passed: u64, part: usize) -> Judged
    ensures { result ≡ record { refusal = refusal; passed = passed; part = part } }
{
    Judged {
        refusal,
        passed,
        part: part as u64,
    }
}

fn swept_as(refusal: Refusal, settled: u64, total: u64) -> Swept
    ensures { result ≡ record { refusal = refusal; settled = settled; total = total } }
{
    Swept {
        refusal,
        settled,
        total,
    }
}

fn projected_as(refusal: Refusal, floor: i64, remainder: u64, divisor: u64) -> Projected
    ensures { result ≡ record { refusal = refusal; floor = floor; remainder = remainder; divisor = divisor } }
{
    Projected {
        refusal,
        floor,
        remainder,
        divisor,
    }
}

pub fn row_as(refusal: Refusal, start: usize, length: usize) -> RowShown
    ensures { result ≡ record { refusal = refusal; start = start; length = length } }
{
    RowShown {
        refusal,
        start: start as u64,
        length: length as u64,
    }
}

// Of a call that answers no more than that it did its job.
pub fn done_told<E: Told>(a: Result<(), E>) -> Refusal
    ensures opened { result ≡ refusal_told (answered E.told of_open a) }
    ensures struck { result ≡ refusal_told (answered E.told of_strike a) }
    ensures written { result ≡ refusal_told (answered E.told of_write a) }
{
    match a {
        Ok(()) => NONE,
        Err(refusal) => refusal.told(),
    }
}

pub fn judge_told<E: Told>(a: Result<Judgement, E>) -> Judged
    ensures { result ≡ judge_told (answered E.told of_judge a) }
{
    match a {
        Ok(Judgement::Passed) => judged_as(NONE, 1, 0),
        Ok(Judgement::Fails(k)) => judged_as(NONE, 0, k),
        Err(refusal) => judged_as(refusal.told(), 0, 0),
    }
}

pub fn sweep_told<E: Told>(a: Result<Progress, E>) -> Swept
    ensures { result ≡ sweep_told (answered E.told of_sweep a) }
{
    match a {
        Ok(Progress::Settled(total)) => swept_as(NONE, 1, total),
        Ok(Progress::Going(total)) => swept_as(NONE, 0, total),
        Err(refusal) => swept_as(refusal.told(), 0, 0),
    }
}

pub fn ultimate_told<E: Told>(a: Result<Ultimate, E>) -> Projected
    ensures { result ≡ ultimate_told (answered E.told of_project a) }
{
    match a {
        Ok(found) => projected_as(NONE, found.floor, found.remainder, found.divisor),
        Err(refusal) => projected_as(refusal.told(), 0, 0, 0),
    }
}

// The figures beside their refusal, which is none where they are shown.
pub fn system_of(refusal: Refusal, figures: Figures) -> System
    ensures { result ≡ system_of refusal figures }
{
    let own = figures.own;
    let matrix = figures.matrix;
    let right_hand = figures.right_hand;
    System {
        refusal,
        last: figures.last as u64,
        closeness: figures.closeness,
        own,
        matrix,
        right_hand,
    }
}

// Zeros where nothing is shown.
pub fn system_told<E: Told>(shown: Result<Figures, E>) -> System
    ensures { result ≡ system_told (shown_or_told E.told shown) }
{
    match shown {
        Ok(figures) => system_of(NONE, figures),
        Err(refusal) => {
            let nothing = Figures {
                last: 0,
                closeness: 0,
                own: [0; 31],
                matrix: [0; 961],
                right_hand: [0; 31],
            };
            system_of(refusal.told(), nothing)
        }
    }
}
