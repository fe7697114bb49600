// The page of a mean: a line of 28 bytes for each part, with its name and index, its mean in ticks and its own weight.
#![tactic(auto)]

ghost use Rattle.std.specs.Prelude.{◌≡◌, ◌++◌, ◌≤◌, drop};
ghost use Rattle.definitions.specs.Refusals.{year_limit};
ghost use Rattle.definitions.specs.Matrix.{part_by_index};
ghost use Rattle.definitions.specs.Page.{page_line, page_of, page_length};
ghost use Rattle.text.specs.Added.{Added};
ghost use Rattle.pages.specs.Pages.{OfLine, OfPage};

use text::parts::{index_of, name_of};
use text::put::{put, put_in};

pub fn page_length(last: usize) -> usize
    requires { last ≤ year_limit }
    ensures { result ≡ page_length last }
{
    28 * (2 * last + 1)
}

// Each number with the space before it.
fn put_line(buf: &mut [u8], at: usize, last: usize, k: usize, mean: i64, own: u64) -> usize
    requires { OfLine buf.old at last k mean own }
    ensures { Added buf.old at (page_line (part_by_index last k) mean own) buf.new result }
{
    let name = name_of(last, k);
    let index = index_of(last, k);
    let named = put(buf, at, &name);
    let indexed = put_in(buf, named, 3, index as u64);
    let estimated = put_in(buf, indexed, 10, mean);
    let weighed = put_in(buf, estimated, 11, own);
    put(buf, weighed, b"\n")
}

// The page at the front of the buffer; the bytes behind it stay.
pub fn write_page<'a>(buf: &'a mut [u8], last: usize, mean: &'a [i64; 31], own: &'a [u64; 31])
    requires { OfPage buf.old last mean.now own.now }
    ensures { buf.new ≡ page_of last mean.now own.now ++ drop (page_length last) buf.old }
{
    let mut end = 0;
    for k in 0..2 * last + 1 {
        end = put_line(buf, end, last, k, mean[k], own[k]);
    }
}
