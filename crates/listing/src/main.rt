// The listing program: opens the file on standard input, sweeps with n = 4,096, reads, and prints the mean.
#![tactic(auto)]

ghost use Rattle.std.specs.Prelude.{◌≤◌, ◌≡◌, length, take};
ghost use Rattle.definitions.specs.Matrix.{part_by_index};
ghost use Rattle.definitions.specs.Programs.{part_line, listing};
ghost use Rattle.laws.specs.Printed.{MeanSettled};
ghost use Rattle.text.specs.Added.{Added};
ghost use Rattle.holding.specs.State.{state_of};
ghost use Rattle.session.specs.Value.{held_by};
ghost use Rattle.settling.specs.Printed.{Prints};
ghost use Rattle.listing.specs.Listing.{OfParts, record_lines};

use fields::signed_4;
use layout::places::last_year;
use session::Session;
use session::calls::read;
use settling::{Printed, printed_of, run};
use std::io;
use text::parts::{index_of, name_of};
use text::put::{put, put_count, put_decimal};

// A name, an index and a mean in ticks.
fn put_part(page: &mut [u8], at: usize, last: usize, k: usize, mean: i64) -> usize
    requires { OfParts page.old at last }
    ensures { Added page.old at (part_line (part_by_index last k) mean) page.new result }
{
    let name = name_of(last, k);
    let index = index_of(last, k);
    let named = put(page, at, &name);
    let spaced = put(page, named, b" ");
    let indexed = put_decimal(page, spaced, index as u64);
    let parted = put(page, indexed, b" ");
    let counted = put_decimal(page, parted, mean);
    put(page, counted, b"\n")
}

// A line for each part of a record.
fn put_parts(page: &mut [u8], at: usize, last: usize, record: &[u8; 129]) -> usize
    requires { OfParts page.old at last }
    ensures { Added page.old at (record_lines last «record».now) page.new result }
{
    let count = 2 * last + 1;
    let mut end = at;
    for k in 0..count {
        let mean = signed_4(record, 5 + 4 * k).unwrap();
        end = put_part(page, end, last, k, mean);
    }
    end
}

// The mean that settled, below J and the sweeps that were run. It is read back, which is never refused: it passes, and no record
// has more than 129 bytes.
fn list_mean(given: &[u8], s: Session, total: u64) -> Printed
    requires { MeanSettled given.now (state_of (held_by s)) total }
    ensures { Prints (listing given.now) result }
{
    let mut record = [0u8; 129];
    read(s, &mut record).unwrap();
    let last = last_year(given) as usize;
    let mut bytes = [0u8; 4096];
    let headed = put_count(&mut bytes, 0, b"J ", last as u64);
    let counted = put_count(&mut bytes, headed, b"sweeps ", total);
    let end = put_parts(&mut bytes, counted, last, &record);
    Printed { bytes, end }
}

// All that is printed. The longest has 33 lines and 524 bytes. The second fact is what a part of an array is asked for.
fn list(given: &[u8]) -> Printed
    ensures bytes_value { take result.end result.bytes ≡ listing given.now }
    ensures end_in_bounds { (result.end ≤ length result.bytes) × (result.end ≡ length (take result.end result.bytes)) }
{
    printed_of(given, |s, total| list_mean(given, s, total))
}

fn main(rt: HostRuntime) -> io::Result<()> {
    run(&rt, list)
}
