// The checks 1 to 10 of a file, in number order, each the definition's of its number. From 6 on the file has the length of its J, so
// that no reading of a field ends.
ghost use Rattle.std.specs.Prelude.{◌≡◌, ◌≤◌, length};
ghost use Rattle.definitions.specs.Refusals.{check1, check2, check3, check4, check5, check6, check7, check8, check9, check10, file_check};
ghost use Rattle.layout.specs.Refusals.{told};
ghost use Rattle.layout.specs.Checks.{header_checks, figure_checks, Whole};

use super::{Limits, Run, check_length, check_parts, check_unsigned, check_version};
use crate::places::{amounts_at, cells_of, file_length, last_year, parts_of};
use crate::refusals::{Reason, Refusal};
use fields::{unsigned_4, unsigned_8};

// In squared ticks: 2^18, 2^40 and, of a prior, 2^46.
const LEAST_VARIANCE: u64 = 262144;

const MOST_VARIANCE: u64 = 1099511627776;

const MOST_PRIOR_VARIANCE: u64 = 70368744177664;

// 2^44.
const MOST_AMOUNT: u64 = 17592186044416;

// Length.
fn check_1(s: &[u8]) -> Result<(), Refusal>
    ensures { told result ≡ check1 s.now }
{
    check_length(s, 10)
}

// Version.
fn check_2(s: &[u8]) -> Result<(), Refusal>
    requires { 10 ≤ length s.now }
    ensures { told result ≡ check2 s.now }
{
    check_version(s)
}

// J.
fn check_3(s: &[u8]) -> Result<(), Refusal>
    ensures { told result ≡ check3 s.now }
{
    let last = last_year(s);
    if last < 1 {
        return Err(Reason::LastYear.at(5));
    }
    if 15 < last {
        return Err(Reason::LastYear.at(5));
    }
    Ok(())
}

// Length for J.
fn check_4(s: &[u8]) -> Result<(), Refusal>
    ensures { told result ≡ check4 s.now }
{
    if s.len() != file_length(last_year(s)) {
        return Err(Reason::LengthForYear.at(0));
    }
    Ok(())
}

// Closeness.
fn check_5(s: &[u8]) -> Result<(), Refusal>
    requires { 10 ≤ length s.now }
    ensures { told result ≡ check5 s.now }
{
    let Some(closeness) = unsigned_4(s, 6) else {
        return Err(Reason::Closeness.at(6));
    };
    if closeness < 1 {
        return Err(Reason::Closeness.at(6));
    }
    if 65536 < closeness {
        return Err(Reason::Closeness.at(6));
    }
    Ok(())
}

// Variances σ² and τ².
fn check_6(s: &[u8]) -> Result<(), Refusal>
    requires { Whole s.now }
    ensures { told result ≡ check6 s.now }
{
    let run = Run {
        first: 10,
        stride: 8,
        count: parts_of(last_year(s)),
    };
    let limits = Limits {
        low: LEAST_VARIANCE,
        high: MOST_VARIANCE,
        zero: false,
    };
    check_unsigned(s, Reason::Variance, run, limits)
}

// Prior variances, each behind its mean; 0 stands for no prior.
fn check_7(s: &[u8]) -> Result<(), Refusal>
    requires { Whole s.now }
    ensures { told result ≡ check7 s.now }
{
    let count = parts_of(last_year(s));
    let run = Run {
        first: 14 + 8 * count,
        stride: 12,
        count,
    };
    let limits = Limits {
        low: LEAST_VARIANCE,
        high: MOST_PRIOR_VARIANCE,
        zero: true,
    };
    check_unsigned(s, Reason::PriorVariance, run, limits)
}

// Prior means.
fn check_8(s: &[u8]) -> Result<(), Refusal>
    requires { Whole s.now }
    ensures { told result ≡ check8 s.now }
{
    let count = parts_of(last_year(s));
    let run = Run {
        first: 10 + 8 * count,
        stride: 12,
        count,
    };
    check_parts(s, Reason::PriorMean, run)
}

// Amounts of both blocks.
fn check_9(s: &[u8]) -> Result<(), Refusal>
    requires { Whole s.now }
    ensures { told result ≡ check9 s.now }
{
    let last = last_year(s);
    let run = Run {
        first: amounts_at(last),
        stride: 8,
        count: 2 * cells_of(last),
    };
    let limits = Limits {
        low: 1,
        high: MOST_AMOUNT,
        zero: false,
    };
    check_unsigned(s, Reason::Amount, run, limits)
}

// Both blocks end their first row alike.
fn check_10(s: &[u8]) -> Result<(), Refusal>
    requires { Whole s.now }
    ensures { told result ≡ check10 s.now }
{
    let last = last_year(s);
    let paid_at = amounts_at(last) + 8 * (last as usize);
    let incurred_at = paid_at + 8 * cells_of(last);
    let Some(paid) = unsigned_8(s, paid_at) else {
        return Err(Reason::LastAmounts.at(paid_at));
    };
    let Some(incurred) = unsigned_8(s, incurred_at) else {
        return Err(Reason::LastAmounts.at(paid_at));
    };
    if paid != incurred {
        return Err(Reason::LastAmounts.at(paid_at));
    }
    Ok(())
}

// 6 to 10.
fn check_figures(s: &[u8]) -> Result<(), Refusal>
    requires { Whole s.now }
    ensures { told result ≡ figure_checks s.now }
{
    check_6(s)?;
    check_7(s)?;
    check_8(s)?;
    check_9(s)?;
    check_10(s)
}

// 2 to 10.
fn check_header(s: &[u8]) -> Result<(), Refusal>
    requires { 10 ≤ length s.now }
    ensures { told result ≡ header_checks s.now }
{
    check_2(s)?;
    check_3(s)?;
    check_4(s)?;
    check_5(s)?;
    check_figures(s)
}

// 1 to 10: what open and row share.
#[tactic(auto, unfolding(definitions::specs::Refusals::file_check))]
pub fn check_file(s: &[u8]) -> Result<(), Refusal>
    ensures { told result ≡ file_check s.now }
{
    check_1(s)?;
    check_header(s)
}
