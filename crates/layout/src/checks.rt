// Checks: each answers that all is well, or why not and where. Here are those that a file and a mean record share.
ghost use Rattle.std.specs.Prelude.{◌≡◌, ◌+◌, ◌≤◌, length};
ghost use Rattle.definitions.specs.Refusals.{check2};
ghost use Rattle.layout.specs.Refusals.{told, number_of};
ghost use Rattle.layout.specs.Checks.{PartRead, length_check, run_inside, allowed, unsigned_run, signed_run};

use crate::refusals::{Reason, Refusal};
use fields::{signed_4, unsigned_1, unsigned_4, unsigned_8};

pub mod file;
pub mod record;

// 2^26.
const MOST_PART: u64 = 67108864;

// Fields of one number: the first at `first`, each `stride` bytes behind the one before.
#[derive(Clone, Copy)]
struct Run {
    first: usize,
    stride: usize,
    count: usize,
}

// What a field may be: from `low` to `high`, and where `zero` says so 0 as well.
#[derive(Clone, Copy)]
struct Limits {
    low: u64,
    high: u64,
    zero: bool,
}

impl Limits {
    fn allow(self, v: u64) -> bool
        ensures { result ≡ allowed self v }
    {
        if v < self.low {
            return self.zero && v == 0;
        }
        v <= self.high
    }
}

// The first 8-byte field of a run that its limits do not allow is refused.
fn check_unsigned(s: &[u8], reason: Reason, run: Run, limits: Limits) -> Result<(), Refusal>
    requires { run_inside 8 run (length s.now) }
    ensures { told result ≡ unsigned_run s.now (number_of reason) run limits }
{
    let first = run.first;
    let stride = run.stride;
    for k in 0..run.count {
        let at = first + stride * k;
        let Some(v) = unsigned_8(s, at) else {
            return Err(reason.at(at));
        };
        if !limits.allow(v) {
            return Err(reason.at(at));
        }
    }
    Ok(())
}

// A part of a mean: a signed field of 4 bytes, at most 2^26 in size.
pub fn read_part(s: &[u8], reason: Reason, at: usize) -> Result<i64, Refusal>
    requires { at + 4 ≤ length s.now }
    ensures { PartRead s.now at reason result }
{
    let Some(z) = signed_4(s, at) else {
        return Err(reason.at(at));
    };
    if MOST_PART < z.unsigned_abs() {
        return Err(reason.at(at));
    }
    Ok(z)
}

// The first part of a run that is outside the limits is refused.
fn check_parts(s: &[u8], reason: Reason, run: Run) -> Result<(), Refusal>
    requires { run_inside 4 run (length s.now) }
    ensures { told result ≡ signed_run s.now (number_of reason) run }
{
    let first = run.first;
    let stride = run.stride;
    for k in 0..run.count {
        read_part(s, reason, first + stride * k)?;
    }
    Ok(())
}

// At least so many bytes, and as many as the length word says.
fn check_length(s: &[u8], least: usize) -> Result<(), Refusal>
    requires { 4 ≤ least }
    ensures { told result ≡ length_check least s.now }
{
    if s.len() < least {
        return Err(Reason::Length.at(0));
    }
    let Some(word) = unsigned_4(s, 0) else {
        return Err(Reason::Length.at(0));
    };
    if word != s.len() as u64 {
        return Err(Reason::Length.at(0));
    }
    Ok(())
}

fn check_version(s: &[u8]) -> Result<(), Refusal>
    requires { 5 ≤ length s.now }
    ensures { told result ≡ check2 s.now }
{
    let Some(version) = unsigned_1(s, 4) else {
        return Err(Reason::Version.at(4));
    };
    if version != 1 {
        return Err(Reason::Version.at(4));
    }
    Ok(())
}
