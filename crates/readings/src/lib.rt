// The figures of a file that has the length of its J, each in its unit.
#![tactic(auto)]

ghost use Rattle.std.specs.Prelude.{◌≡◌, ◌+◌, ◌*◌, ◌≤◌, ◌<◌, length};
ghost use Rattle.definitions.specs.Layout.{
  unsigned,
  last_year,
  parts,
  cells,
  closeness,
  variance_of,
  prior_mean,
  prior_variance,
  amount,
};
ghost use Rattle.layout.specs.Checks.{Whole};

use fields::{signed_4, unsigned_4, unsigned_8};
use layout::places::{amounts_at, last_year, parts_of};
use scales::{Amount, Ticks, Variance};

pub mod rows;

pub fn closeness_of(s: &[u8]) -> u64
    requires { Whole s.now }
    ensures { result ≡ closeness s.now }
{
    let Some(e) = unsigned_4(s, 6) else {
        return 0;
    };
    e
}

// An 8-byte field that ends inside the file.
fn eight(s: &[u8], at: usize) -> u64
    requires { at + 8 ≤ length s.now }
    ensures { result ≡ unsigned 8 at s.now }
{
    let Some(v) = unsigned_8(s, at) else {
        return 0;
    };
    v
}

// σ² of Φ_0..Φ_J, then τ² of Ψ_0..Ψ_(J−1).
pub fn variance_of(s: &[u8], k: usize) -> Variance
    requires { Whole s.now × (k < parts (last_year s.now)) }
    ensures { result.0 ≡ variance_of s.now k }
{
    Variance(eight(s, 10 + 8 * k))
}

pub fn prior_mean(s: &[u8], k: usize) -> Ticks
    requires { Whole s.now × (k < parts (last_year s.now)) }
    ensures { result.0 ≡ prior_mean s.now k }
{
    let at = 10 + 8 * parts_of(last_year(s)) + 12 * k;
    let Some(mean) = signed_4(s, at) else {
        return Ticks(0);
    };
    Ticks(mean)
}

pub fn prior_variance(s: &[u8], k: usize) -> Variance
    requires { Whole s.now × (k < parts (last_year s.now)) }
    ensures { result.0 ≡ prior_variance s.now k }
{
    Variance(eight(s, 14 + 8 * parts_of(last_year(s)) + 12 * k))
}

// Cell c of the two blocks, paid block first.
pub fn amount_of(s: &[u8], c: usize) -> Amount
    requires { Whole s.now × (c < 2 * cells (last_year s.now)) }
    ensures { result.0 ≡ amount s.now c }
{
    Amount(eight(s, amounts_at(last_year(s)) + 8 * c))
}
