// Fields of a lent byte string: a place in, and out the field's value, if the string has all of its bytes.
#![tactic(auto)]

ghost use Rattle.std.specs.Prelude.{◌≡◌, ◌≤◌, length};
ghost use Rattle.definitions.specs.Layout.{big_endian};
ghost use Rattle.fields.specs.Fields.{byte_field_at, field_at, signed_field_at};

pub mod put;

// Big-endian: one loop for the longer fields.
fn number(bytes: &[u8]) -> u64
    requires { length bytes.now ≤ 8 }
    ensures { result ≡ big_endian 0 bytes.now }
{
    let mut value = 0u64;
    for byte in bytes {
        value = value * 256 + u64::from(*byte);
    }
    value
}

// None where fewer bytes are left than the field has.
fn unsigned(s: &[u8], at: usize, width: usize) -> Option<u64>
    requires { width ≤ 8 }
    ensures { result ≡ field_at width at s.now }
{
    if s.len() < at || s.len() - at < width {
        return None;
    }
    Some(number(&s[at..at + width]))
}

pub fn unsigned_1(s: &[u8], at: usize) -> Option<u8>
    ensures { result ≡ byte_field_at at s.now }
{
    s.get(at).copied()
}

pub fn unsigned_4(s: &[u8], at: usize) -> Option<u64>
    ensures { result ≡ field_at 4 at s.now }
{
    unsigned(s, at, 4)
}

pub fn unsigned_8(s: &[u8], at: usize) -> Option<u64>
    ensures { result ≡ field_at 8 at s.now }
{
    unsigned(s, at, 8)
}

// A 4-byte field in two's complement.
pub fn signed_4(s: &[u8], at: usize) -> Option<i64>
    ensures { result ≡ signed_field_at at s.now }
{
    let word = unsigned_4(s, at)? as u32;
    Some(i64::from(word.cast_signed()))
}
