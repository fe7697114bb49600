// Texts put on a page, one behind another. Each function puts its text at a place of the page, as much of it as the page has room
// for, leaves what stands behind it, and answers where it ends.
ghost use Rattle.std.specs.Prelude.{◌≤◌, length};
ghost use Rattle.definitions.specs.Text.{aligned};
ghost use Rattle.definitions.specs.Programs.{count_line, refusal_line};
ghost use Rattle.text.specs.Added.{Added, OfColumns};

use crate::digits::Spell;

pub fn put(page: &mut [u8], at: usize, text: &[u8]) -> usize
    requires { at ≤ length page.old }
    ensures { Added page.old at text.now page.new result }
{
    let count = (page.len() - at).min(text.len());
    let end = at + count;
    page[at..end].copy_from_slice(&text[..count]);
    end
}

// A number in base ten.
pub fn put_decimal<N: Spell>(page: &mut [u8], at: usize, n: N) -> usize
    requires { at ≤ length page.old }
    ensures { Added page.old at (N.text n) page.new result }
{
    let spelt = n.spell();
    put(page, at, &spelt.bytes[spelt.from..])
}

// Right-aligned in so many columns.
pub fn put_in<N: Spell>(page: &mut [u8], at: usize, columns: usize, n: N) -> usize
    requires { OfColumns page.old at columns (N.text n) }
    ensures { Added page.old at (aligned columns (N.text n)) page.new result }
{
    let spelt = n.spell();
    put(page, at, &spelt.bytes[20 - columns..])
}

// A name and a number.
pub fn put_count(page: &mut [u8], at: usize, name: &[u8], n: u64) -> usize
    requires { at ≤ length page.old }
    ensures { Added page.old at (count_line name.now n) page.new result }
{
    let named = put(page, at, name);
    let counted = put_decimal(page, named, n);
    put(page, counted, b"\n")
}

pub fn put_refusal(page: &mut [u8], number: u64, place: usize) -> usize
    ensures { Added page.old 0 (refusal_line number place) page.new result }
{
    let named = put(page, 0, b"refused ");
    let numbered = put_decimal(page, named, number);
    put_count(page, numbered, b" at ", place as u64)
}
