// Why a call is refused: the specification's reason, known to callers by its number, and the place of the field that is to blame.
ghost use Rattle.std.specs.Prelude.{◌≡◌};
ghost use Rattle.layout.specs.Refusals.{number_of};

#[derive(Clone, Copy, Debug, PartialEq, Eq)]
pub enum Reason {
    // 1 to 10 of a file; 1, 2, 4 and 11 of a mean record.
    Length,
    Version,
    LastYear,
    LengthForYear,
    Closeness,
    Variance,
    PriorVariance,
    PriorMean,
    Amount,
    LastAmounts,
    Part,
    // 12: how many sweeps are asked for. 13: the buffer is short. 14 and 15: no such channel, no such row.
    Sweeps,
    Buffer,
    Channel,
    Row,
    // 21 and 22: nothing is open, a file is. 23: the sweeps are used up. 24: the mean does not pass.
    NothingOpen,
    FileOpen,
    Spent,
    NotPassed,
    // 25: no accident year with an ultimate. 26: no step that is left. 27: the last step of its column.
    UltimateYear,
    Step,
    LastStep,
}

impl Reason {
    // The specification's number.
    pub fn number(self) -> u64
        ensures { result ≡ number_of self }
    {
        match self {
            Reason::Length => 1,
            Reason::Version => 2,
            Reason::LastYear => 3,
            Reason::LengthForYear => 4,
            Reason::Closeness => 5,
            Reason::Variance => 6,
            Reason::PriorVariance => 7,
            Reason::PriorMean => 8,
            Reason::Amount => 9,
            Reason::LastAmounts => 10,
            Reason::Part => 11,
            Reason::Sweeps => 12,
            Reason::Buffer => 13,
            Reason::Channel => 14,
            Reason::Row => 15,
            Reason::NothingOpen => 21,
            Reason::FileOpen => 22,
            Reason::Spent => 23,
            Reason::NotPassed => 24,
            Reason::UltimateYear => 25,
            Reason::Step => 26,
            Reason::LastStep => 27,
        }
    }

    pub fn at(self, place: usize) -> Refusal
        ensures { result ≡ record { reason = self; place = place } }
    {
        Refusal {
            reason: self,
            place,
        }
    }
}

#[derive(Clone, Copy, Debug, PartialEq, Eq)]
pub struct Refusal {
    pub reason: Reason,
    // 0 where no field is to blame.
    pub place: usize,
}
