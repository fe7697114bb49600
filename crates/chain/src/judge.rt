// The test of a mean by its residues: |residue| ≤ e·D at each part.
ghost use Rattle.std.specs.Prelude.{◌≡◌};
ghost use Rattle.definitions.specs.Matrix.{is_passed};
ghost use Rattle.chain.specs.Judge.{OwnFits, Tested, Passes};
ghost use Rattle.chain.specs.Verdict.{judgement_of};

#[derive(Clone, Copy, Debug, PartialEq, Eq)]
pub enum Judgement {
    Passed,
    // The first part that fails.
    Fails(usize),
}

// The first part that fails, or that all pass.
pub fn test<'a>(
    last: usize,
    closeness: u64,
    own: &'a [u64; 31],
    residues: &'a [i64; 31],
) -> Judgement
    requires { OwnFits last closeness own.now }
    ensures { Tested last closeness own.now residues.now result }
{
    for k in 0..2 * last + 1 {
        if closeness * own[k] < residues[k].unsigned_abs() {
            return Judgement::Fails(k);
        }
    }
    Judgement::Passed
}

// A judgement as a yes or no.
pub fn is_passed(j: Judgement) -> bool
    ensures { result ≡ is_passed (judgement_of j) }
{
    j == Judgement::Passed
}

// Whether residues that are at hand pass.
pub fn passes<'a>(last: usize, closeness: u64, own: &'a [u64; 31], residues: &'a [i64; 31]) -> bool
    requires { OwnFits last closeness own.now }
    ensures { Passes last closeness own.now residues.now result }
{
    is_passed(test(last, closeness, own, residues))
}
