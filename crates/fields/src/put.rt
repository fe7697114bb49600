// Numbers written into a lent buffer, first byte highest, in place of the bytes that were there.
ghost use Rattle.std.specs.Prelude.{◌+◌, ◌≤◌, length};
ghost use Rattle.laws.specs.NumberBytes.{Put};

// Of a larger number the lowest four bytes.
pub fn put_four(buf: &mut [u8], at: usize, v: u64)
    requires { at + 4 ≤ length buf.old }
    ensures { Put 4 buf.old at v buf.new }
{
    let word = (v % 4294967296) as u32;
    buf[at..at + 4].copy_from_slice(&word.to_be_bytes());
}

pub fn put_eight(buf: &mut [u8], at: usize, v: u64)
    requires { at + 8 ≤ length buf.old }
    ensures { Put 8 buf.old at v buf.new }
{
    buf[at..at + 8].copy_from_slice(&v.to_be_bytes());
}
