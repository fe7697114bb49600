// One step: the change of one part, with the residues following.
ghost use Rattle.steps.specs.Step.{Follows, Followed, Steps, Stepped};

use crate::Working;
use arithmetic::floor::floor;
use arithmetic::limits::brought_back;

// Part k has changed, and the residues follow: column k of A times the change is added. Above the diagonal the column is read as
// row k, its mirror.
fn follow(last: usize, matrix: &[i64; 961], residues: &mut [i64; 31], k: usize, change: i64)
    requires { Follows last matrix.now residues.old k change }
    ensures { Followed last matrix.now residues.old k change residues.new }
{
    if change == 0 {
        return;
    }
    for l in 0..k {
        residues[l] += matrix[31 * k + l] * change;
    }
    for l in k..2 * last + 1 {
        residues[l] += matrix[31 * l + k] * change;
    }
}

// The step of part k, by the specification's "The calls". Half of A_kk is rounded down before the residue is taken from it: that gives
// the same change, and twice a residue, which 64 bits do not hold, is never formed.
fn step(last: usize, matrix: &[i64; 961], working: Working, k: usize) -> Working
    requires { Steps last matrix.now working k }
    ensures { Stepped last matrix.now working k result }
{
    let mut after = working;
    let diagonal = matrix[31 * k + k];
    let old = after.mean[k];
    let fresh = brought_back(old + floor(diagonal / 2 - after.residues[k], diagonal));
    after.mean[k] = fresh;
    follow(last, matrix, &mut after.residues, k, fresh - old);
    after
}

// The pair stepped where it is held.
pub fn step_in(working: &mut Working, last: usize, matrix: &[i64; 961], k: usize)
    requires { Steps last matrix.now working.old k }
    ensures { Stepped last matrix.now working.old k working.new }
{
    *working = step(last, matrix, *working, k);
}
