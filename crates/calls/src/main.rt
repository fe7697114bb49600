// A program that runs calls: docs/CALLS.md. Each answer is written before the next call is read.
#![tactic(auto)]

use crate::call::Call;
use crate::printing::{
    print_done, print_hex, print_judge, print_refusal, print_sweep, print_ultimate,
};
use crate::reading::{read_call, read_length, read_number, read_string};
use crate::shown::print_figures;
use crate::stop::Stop;
use readings::rows::{row, row_told};
use session::Session;
use session::answers::Refusal;
use session::calls::{close, figures, judge, open, page, read, residues, strike, sweep, ultimate};
use session::state::empty;
use std::io;

mod call;
mod printing;
mod reading;
mod shown;
mod stop;

// Each of these answers the session after a call, or why no call follows.
fn run_open(rt: &HostRuntime, s: Session) -> Result<Session, Stop> {
    let mut lent = [0u8; 4096];
    let n = read_string(rt, &mut lent)?;
    let opening = open(s, &lent[..n]);
    print_done(rt, "opened", opening.answer)?;
    Ok(opening.session)
}

fn run_judge(rt: &HostRuntime, s: Session) -> Result<Session, Stop> {
    let mut lent = [0u8; 4096];
    let n = read_string(rt, &mut lent)?;
    print_judge(rt, judge(s, &lent[..n]))?;
    Ok(s)
}

fn run_sweep(rt: &HostRuntime, s: Session) -> Result<Session, Stop> {
    let n = read_number(rt)?;
    let sweeping = sweep(s, n);
    print_sweep(rt, sweeping.answer)?;
    Ok(sweeping.session)
}

// A call that writes: its answer, then the buffer as it is left. Each lent byte is 0xA5, so that what is printed shows which of them
// were written.
fn run_writing<F>(rt: &HostRuntime, s: Session, said: &str, call: F) -> Result<Session, Stop>
where
    F: FnOnce(Session, &mut [u8]) -> Result<(), Refusal>,
    requires { F.IsAlwaysCallable call }
{
    let mut lent = [0xA5u8; 4096];
    let n = read_length(rt, &lent)?;
    let answer = call(s, &mut lent[..n]);
    print_done(rt, said, answer)?;
    print_hex(rt, "buffer", &lent[..n])?;
    Ok(s)
}

fn run_residues(rt: &HostRuntime, s: Session) -> Result<Session, Stop> {
    let mut record = [0u8; 4096];
    let n = read_string(rt, &mut record)?;
    let given = &record[..n];
    run_writing(rt, s, "residues", |s, lent| residues(s, given, lent))
}

fn run_ultimate(rt: &HostRuntime, s: Session) -> Result<Session, Stop> {
    let year = read_number(rt)?;
    print_ultimate(rt, ultimate(s, year))?;
    Ok(s)
}

fn run_strike(rt: &HostRuntime, s: Session) -> Result<Session, Stop> {
    let channel = read_number(rt)?;
    let year = read_number(rt)?;
    let column = read_number(rt)?;
    let striking = strike(s, channel, year, column);
    print_done(rt, "struck", striking.answer)?;
    Ok(striking.session)
}

fn print_row(rt: &HostRuntime, file: &[u8], channel: usize, year: usize) -> io::Result<()> {
    match row_told(file, channel, year) {
        Ok(()) => print_hex(rt, "row", row(file, channel, year)),
        Err(refusal) => print_refusal(rt, refusal),
    }
}

fn run_row(rt: &HostRuntime, s: Session) -> Result<Session, Stop> {
    let mut lent = [0u8; 4096];
    let n = read_string(rt, &mut lent)?;
    let channel = read_number(rt)?;
    let year = read_number(rt)?;
    print_row(rt, &lent[..n], channel as usize, year as usize)?;
    Ok(s)
}

fn run_figures(rt: &HostRuntime, s: Session) -> Result<Session, Stop> {
    print_figures(rt, figures(s))?;
    Ok(s)
}

fn run_close(rt: &HostRuntime, s: Session) -> Result<Session, Stop> {
    let session = close(s);
    println!(rt; "closed")?;
    Ok(session)
}

fn run(rt: &HostRuntime, s: Session, call: Call) -> Result<Session, Stop> {
    match call {
        Call::Open => run_open(rt, s),
        Call::Judge => run_judge(rt, s),
        Call::Sweep => run_sweep(rt, s),
        Call::Read => run_writing(rt, s, "read", read),
        Call::Page => run_writing(rt, s, "page", page),
        Call::Ultimate => run_ultimate(rt, s),
        Call::Strike => run_strike(rt, s),
        Call::Residues => run_residues(rt, s),
        Call::Figures => run_figures(rt, s),
        Call::Row => run_row(rt, s),
        Call::Close => run_close(rt, s),
    }
}

// A proved loop has to end, and nothing says that the input does: so it takes turns, more than any run uses up.
fn serve(rt: &HostRuntime) -> Result<(), Stop> {
    let mut session = empty();
    for _ in 0..u64::MAX {
        let call = read_call(rt)?;
        session = run(rt, session, call)?;
    }
    Ok(())
}

fn main(rt: HostRuntime) {
    if let Err(Stop::Script) = serve(&rt) {
        let _ = println!(rt; "script");
    }
}
