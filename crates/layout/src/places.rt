// Where the fields of a file stand, by its last development year J. J is a byte of the file, so that none of these overflows.
ghost use Rattle.std.specs.Prelude.{◌≡◌};
ghost use Rattle.definitions.specs.Layout.{last_year, parts, cells, amount_at, file_length, record_length};

use fields::unsigned_1;

// J; of a string that ends before it, 0.
pub fn last_year(s: &[u8]) -> u8
    ensures { result ≡ last_year s.now }
{
    let Some(last) = unsigned_1(s, 5) else {
        return 0;
    };
    last
}

// Parts of a mean, and variances, and priors.
pub fn parts_of(last: u8) -> usize
    ensures { result ≡ parts last }
{
    2 * (last as usize) + 1
}

// Cells of one block.
pub fn cells_of(last: u8) -> usize
    ensures { result ≡ cells last }
{
    let years = last as usize;
    (years + 1) * (years + 2) / 2
}

// The first amount of the paid block.
pub fn amounts_at(last: u8) -> usize
    ensures { result ≡ amount_at last 0 }
{
    10 + 20 * parts_of(last)
}

pub fn file_length(last: u8) -> usize
    ensures { result ≡ file_length last }
{
    let years = last as usize;
    10 + 20 * parts_of(last) + 8 * (years + 1) * (years + 2)
}

pub fn record_length(last: u8) -> usize
    ensures { result ≡ record_length last }
{
    5 + 4 * parts_of(last)
}
