// The parts of a mean by name and index: phi 0 to J, then psi 0 to J − 1.
ghost use Rattle.std.specs.Prelude.{◌≤◌, ◌≡◌};
ghost use Rattle.definitions.specs.Refusals.{year_limit};
ghost use Rattle.definitions.specs.Matrix.{part_by_index};
ghost use Rattle.definitions.specs.Text.{name_of, index_of};

pub fn name_of(last: usize, k: usize) -> [u8; 3]
    ensures { result ≡ name_of (part_by_index last k) }
{
    if k <= last { *b"phi" } else { *b"psi" }
}

pub fn index_of(last: usize, k: usize) -> usize
    requires { last ≤ year_limit }
    ensures { result ≡ index_of (part_by_index last k) }
{
    if k <= last { k } else { k - (last + 1) }
}
