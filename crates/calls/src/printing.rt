// The answers on standard output, one line each.
ghost use Rattle.std.specs.Prelude.{◌≡◌, ◌*◌, ◌≤◌, ◌<◌, length, take};
ghost use Rattle.calls.specs.Counts.{IsPrefixLen};
ghost use Rattle.calls.specs.Hex.{hex_digit_ascii, hex_of};

use session::answers::{Judgement, Progress, Refusal, Ultimate};
use std::io;

pub fn print_refusal(rt: &HostRuntime, refusal: Refusal) -> io::Result<()> {
    let number = refusal.reason.number();
    let place = refusal.place;
    println!(rt; "refused {number} at {place}")
}

// Of a call that answers no more than that it did its job: what is then said is the caller's.
pub fn print_done(rt: &HostRuntime, said: &str, answer: Result<(), Refusal>) -> io::Result<()> {
    match answer {
        Ok(()) => println!(rt; "{said}"),
        Err(refusal) => print_refusal(rt, refusal),
    }
}

pub fn print_judge(rt: &HostRuntime, answer: Result<Judgement, Refusal>) -> io::Result<()> {
    match answer {
        Ok(Judgement::Passed) => println!(rt; "passed"),
        Ok(Judgement::Fails(part)) => println!(rt; "fails {part}"),
        Err(refusal) => print_refusal(rt, refusal),
    }
}

pub fn print_sweep(rt: &HostRuntime, answer: Result<Progress, Refusal>) -> io::Result<()> {
    match answer {
        Ok(Progress::Settled(total)) => println!(rt; "settled {total}"),
        Ok(Progress::Going(total)) => println!(rt; "going {total}"),
        Err(refusal) => print_refusal(rt, refusal),
    }
}

pub fn print_ultimate(rt: &HostRuntime, answer: Result<Ultimate, Refusal>) -> io::Result<()> {
    match answer {
        Ok(found) => {
            let floor = found.floor;
            let remainder = found.remainder;
            println!(rt; "ultimate {floor} {remainder}")
        }
        Err(refusal) => print_refusal(rt, refusal),
    }
}

fn digit(d: u8) -> u8
    requires { d < 16 }
    ensures { result ≡ hex_digit_ascii d }
{
    if d < 10 { 48 + d } else { 87 + d }
}

// Two lower-case digits for each byte, as far as there is room; and how many.
fn hex(bytes: &[u8], text: &mut [u8]) -> usize
    ensures prefix_len { IsPrefixLen result text.new }
    ensures text_after { 2 * length bytes.now ≤ length text.old
        → take result text.new ≡ hex_of bytes.now }
{
    let mut end = 0usize;
    for &byte in bytes {
        if text.len() - end < 2 {
            return end;
        }
        text[end] = digit(byte / 16);
        text[end + 1] = digit(byte % 16);
        end += 2;
    }
    end
}

// A name and bytes.
pub fn print_hex(rt: &HostRuntime, name: &str, bytes: &[u8]) -> io::Result<()> {
    let mut text = [0u8; 8192];
    let n = hex(bytes, &mut text);
    print!(rt; "{name} ")?;
    rt.write_all(&text[..n])?;
    println!(rt)
}
