// What the two programs share: they open the file that is given and sweep, and gather what they print before they write it.
#![tactic(auto)]

ghost use Rattle.std.specs.Prelude.{ℕ};
ghost use Rattle.definitions.specs.Programs.{refusal_line, spent_line};
ghost use Rattle.laws.specs.Printed.{MeanSettled};
ghost use Rattle.text.specs.Added.{OnPage};
ghost use Rattle.holding.specs.State.{state_of};
ghost use Rattle.session.specs.Value.{held_by};
ghost use Rattle.settling.specs.Printed.{Prints};
ghost use Rattle.settling.specs.Settles.{Settles};
ghost use Rattle.settling.specs.Told.{Told};

pub use crate::gathered::Printed;
use session::Session;
use session::answers::{Outcome, Progress, Reason};
use session::calls::{open, sweep};
use session::state::empty;
use std::io;
use std::io::Read;
use text::put::{put_count, put_refusal};

mod gathered;

// One byte more than the longest file has, so that a longer input shows.
pub const ROOM: usize = 2807;

// Reads until the buffer is full, the input ends or a read fails: how many bytes it put at the front of the buffer.
pub fn read_full<R: Read>(input: &mut R, buffer: &mut [u8]) -> usize
    ensures { OnPage result buffer.new }
{
    let mut done = 0usize;
    while done < buffer.len() {
        match input.read(&mut buffer[done..]) {
            Ok(0) | Err(_) => break,
            Ok(n) => done += n,
        }
    }
    done
}

// Opens the bytes given and sweeps with n = 4,096. An input that cannot be opened is told as a refused sweep, so that a program has
// one answer to go by.
pub fn settle(given: &[u8]) -> Outcome<Progress>
    ensures { Settles given.now result }
{
    let session = empty();
    if ROOM <= given.len() {
        return Outcome {
            answer: Err(Reason::Length.at(0)),
            session,
        };
    }
    let opening = open(session, given);
    let session = opening.session;
    match opening.answer {
        Ok(()) => sweep(session, 4096),
        Err(refusal) => Outcome {
            answer: Err(refusal),
            session,
        },
    }
}

pub fn spent(total: u64) -> Printed
    ensures { Prints (spent_line total) result }
{
    let mut bytes = [0u8; 4096];
    let end = put_count(&mut bytes, 0, b"spent ", total);
    Printed { bytes, end }
}

pub fn refused(number: u64, place: usize) -> Printed
    ensures { Prints (refusal_line number place) result }
{
    let mut bytes = [0u8; 4096];
    let end = put_refusal(&mut bytes, number, place);
    Printed { bytes, end }
}

// What is printed of the bytes given: a refusal, the sweeps that were spent, or what is made of a session that holds the mean that
// settled and of the sweeps that were run.
pub fn printed_of<F>(given: &[u8], make: F) -> Printed
where
    F: FnOnce(Session, u64) -> Printed,
    requires { (s : Session) (total : ℕ) → MeanSettled given.now (state_of (held_by s)) total → F.pre make s total }
    ensures { Told given.now (λ s total. F.post make s total result) result }
{
    let settling = settle(given);
    match settling.answer {
        Ok(Progress::Settled(total)) => make(settling.session, total),
        Ok(Progress::Going(total)) => spent(total),
        Err(refusal) => refused(refusal.reason.number(), refusal.place),
    }
}

// A program: prints what is made of standard input.
pub fn run<F>(rt: &HostRuntime, make: F) -> io::Result<()>
where
    F: FnOnce(&[u8]) -> Printed,
    requires { F.IsAlwaysCallable make }
{
    let mut given = [0u8; ROOM];
    let n = read_full(&mut rt.stdin(), &mut given);
    let printed = make(&given[..n]);
    rt.write_all(printed.text())
}
