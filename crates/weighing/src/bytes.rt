// Residues as bytes: signed numbers of 8 bytes, one after another.
ghost use Rattle.std.specs.Prelude.{◌≡◌, ◌++◌, ◌≤◌, drop};
ghost use Rattle.definitions.specs.Layout.{parts, complement, number_bytes};
ghost use Rattle.definitions.specs.Residues.{residues_length};
ghost use Rattle.weighing.specs.Bytes.{OfBuffer};

use fields::put::put_eight;
use layout::places::parts_of;

pub fn residues_length(last: u8) -> usize
    requires { last ≤ 15 }
    ensures { result ≡ residues_length last }
{
    8 * parts_of(last)
}

// Two's complement.
fn eight_bytes(z: i64) -> u64
    ensures { result ≡ complement 8 z }
{
    z.cast_unsigned()
}

// At the front of the buffer; the bytes behind them stay.
pub fn write_residues(buf: &mut [u8], last: u8, residues: &[i64; 31])
    requires { OfBuffer last buf.old }
    ensures { buf.new
        ≡ number_bytes 8 0 (parts last) residues.now ++ drop (residues_length last) buf.old }
{
    for k in 0..parts_of(last) {
        let z = residues[k];
        put_eight(buf, 8 * k, eight_bytes(z));
    }
}
