// The marks of struck steps: that of part k and accident year i is at 16·k + i, and not 0 where the step is struck.
ghost use Rattle.std.specs.Prelude.{◌≡◌};
ghost use Rattle.definitions.specs.Kept.{steps_of};
ghost use Rattle.observations.specs.Arrays.{unmarked};
ghost use Rattle.observations.specs.Strikes.{OfPartIndex, OfSteps, OfYears, LeftIn};

// How many steps a part has: its own observations.
pub fn steps_of(last: u8, k: usize) -> usize
    requires { OfPartIndex last k }
    ensures { result ≡ steps_of last k }
{
    let years = last as usize;
    if k <= years {
        years - k + 1
    } else {
        2 * years + 1 - k
    }
}

// How many of a part's first n steps are left.
pub fn left_of(struck: &[u8; 496], k: usize, n: usize) -> u64
    requires { OfSteps k n }
    ensures { result ≡ unmarked struck.now k n }
{
    let marks = &struck[16 * k..16 * k + n];
    marks.iter().filter(|mark| **mark == 0).count() as u64
}

// How many steps of each part are left.
pub fn left_in(struck: &[u8; 496], last: u8) -> [u64; 31]
    requires { OfYears last }
    ensures { LeftIn struck.now last result }
{
    let parts = 2 * (last as usize) + 1;
    let mut counts = [0u64; 31];
    for k in 0..parts {
        counts[k] = left_of(struck, k, steps_of(last, k));
    }
    counts
}
