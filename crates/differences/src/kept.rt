// What a session keeps, as the sums of the residues go over it.
ghost use Rattle.std.specs.Prelude.{◌≤◌};
ghost use Rattle.definitions.specs.Refusals.{year_limit};
ghost use Rattle.row_starts.specs.Starts.{Starts};

#[derive(Drop)]
pub struct Kept<'a> {
    pub ticks: &'a [i64; 303],
    pub weights: &'a [u64; 77],
    pub struck: &'a [u8; 496],
    // Of the rows of a block.
    pub starts: [usize; 16],
    pub last: u8,
    pub ghost few: { last ≤ year_limit },
    pub ghost starts_are: { Starts last starts },
}
