// The program for the board pack: opens the file on standard input, sweeps with n = 4,096, and prints the page of the mean.
#![tactic(auto)]

ghost use Rattle.std.specs.Prelude.{ℕ, ◌≤◌, ◌≡◌, length, take};
ghost use Rattle.definitions.specs.Programs.{board_page};
ghost use Rattle.laws.specs.Printed.{MeanSettled};
ghost use Rattle.holding.specs.State.{state_of};
ghost use Rattle.session.specs.Value.{held_by};
ghost use Rattle.settling.specs.Printed.{Prints};

use layout::places::last_year;
use pages::page_length;
use session::Session;
use session::calls::page;
use settling::{Printed, printed_of, run};
use std::io;

// The page of the mean that settled, which is never refused: it passes, and no page has more than 868 bytes.
fn page_mean(given: &[u8], s: Session) -> Printed
    requires { (total : ℕ) × MeanSettled given.now (state_of (held_by s)) total }
    ensures { Prints (board_page given.now) result }
{
    let mut bytes = [0u8; 4096];
    page(s, &mut bytes).unwrap();
    let last = last_year(given) as usize;
    let end = page_length(last);
    Printed { bytes, end }
}

// All that is printed. The second fact is what a part of an array is asked for.
fn board(given: &[u8]) -> Printed
    ensures bytes_value { take result.end result.bytes ≡ board_page given.now }
    ensures end_in_bounds { (result.end ≤ length result.bytes) × (result.end ≡ length (take result.end result.bytes)) }
{
    printed_of(given, |s, _| page_mean(given, s))
}

fn main(rt: HostRuntime) -> io::Result<()> {
    run(&rt, board)
}
