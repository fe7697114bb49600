// The arguments of a call, from standard input: never more bytes than the call has, so that it can be answered before the next.
ghost use Rattle.std.specs.Prelude.{IfOk};
ghost use Rattle.calls.specs.Counts.{IsPrefixLen};

use crate::call::Call;
use crate::stop::Stop;
use fields::unsigned_4;
use std::io::Read;

// Fills the buffer. An input that ends first cuts the call off.
fn read_full(rt: &HostRuntime, buffer: &mut [u8]) -> Result<(), Stop> {
    rt.stdin().read_exact(buffer).map_err(|_| Stop::Script)
}

// The next call, where there is one.
pub fn read_call(rt: &HostRuntime) -> Result<Call, Stop> {
    let mut letter = [0u8; 1];
    let read = rt.stdin().read_exact(&mut letter);
    read.map_err(|_| Stop::Input)?;
    Call::try_from(letter[0])
}

pub fn read_number(rt: &HostRuntime) -> Result<u64, Stop> {
    let mut four = [0u8; 4];
    read_full(rt, &mut four)?;
    unsigned_4(&four, 0).ok_or(Stop::Script)
}

// A number that is at most the length of the buffer.
pub fn read_length(rt: &HostRuntime, buffer: &[u8]) -> Result<usize, Stop>
    ensures { IfOk result (λ n. IsPrefixLen n buffer.now) }
{
    let n = read_number(rt)?;
    if (buffer.len() as u64) < n {
        return Err(Stop::Script);
    }
    Ok(n as usize)
}

// A byte string, to the front of the buffer: its length, and that many bytes.
pub fn read_string(rt: &HostRuntime, buffer: &mut [u8]) -> Result<usize, Stop>
    ensures { IfOk result (λ n. IsPrefixLen n buffer.new) }
{
    let n = read_length(rt, buffer)?;
    read_full(rt, &mut buffer[..n])?;
    Ok(n)
}
