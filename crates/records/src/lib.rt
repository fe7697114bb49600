// Mean records: the mean that a record holds, or why it is refused, and the record of a mean.
#![tactic(auto)]

ghost use Rattle.std.specs.Prelude.{◌≡◌, ◌∷◌, ◌++◌, ◌+◌, ◌≤◌, ◌^◌, length, drop, nat_abs};
ghost use Rattle.definitions.specs.Layout.{parts, record_length, record_of, bytes_of, four_bytes};
ghost use Rattle.records.specs.Records.{Writes, with_parts};
ghost use Rattle.records.specs.Parse.{ParsedParts, ParsedRecord};

use fields::put::put_four;
use layout::checks::read_part;
use layout::checks::record::check_head;
use layout::places::{parts_of, record_length};
use layout::refusals::{Reason, Refusal};

// The parts of a record of the right length, each read once, and zeros behind them: 11.
fn parse_parts(last: u8, r: &[u8]) -> Result<[i64; 31], Refusal>
    requires { (last ≤ 15) × (length r.now ≡ record_length last) }
    ensures { ParsedParts last r.now result }
{
    let mut mean = [0i64; 31];
    for k in 0..parts_of(last) {
        let part = read_part(r, Reason::Part, 5 + 4 * k)?;
        mean[k] = part;
    }
    Ok(mean)
}

// The mean of a record for the J of an open file: 1, 2, 4 and 11.
pub fn parse(last: u8, r: &[u8]) -> Result<[i64; 31], Refusal>
    requires { last ≤ 15 }
    ensures { ParsedRecord last r.now result }
{
    check_head(last, r)?;
    parse_parts(last, r)
}

// A part in two's complement.
fn four_bytes(z: i64) -> u64
    requires { nat_abs z ≤ 2 ^ 26 }
    ensures { result ≡ four_bytes z }
{
    u64::from((z as i32).cast_unsigned())
}

fn put_header(buf: &mut [u8], last: u8)
    requires { 5 ≤ length buf.old }
    ensures { buf.new ≡ bytes_of 4 (record_length last) ++ 1 ∷ drop 5 buf.old }
{
    put_four(buf, 0, record_length(last) as u64);
    buf[4] = 1;
}

fn put_parts(buf: &mut [u8], last: u8, mean: &[i64; 31])
    requires { Writes last mean.now buf.old }
    ensures { buf.new ≡ with_parts buf.old mean.now (parts last) }
{
    for k in 0..parts_of(last) {
        let z = mean[k];
        put_four(buf, 5 + 4 * k, four_bytes(z));
    }
}

// The record of a mean, at the front of the buffer; the bytes behind it stay.
pub fn write_record(buf: &mut [u8], last: u8, mean: &[i64; 31])
    requires { Writes last mean.now buf.old }
    ensures { buf.new ≡ record_of last mean.now ++ drop (record_length last) buf.old }
{
    put_header(buf, last);
    put_parts(buf, last, mean);
}
