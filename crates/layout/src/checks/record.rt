// The checks of a mean record that come before its parts, for the J of an open file: 1, 2 and 4.
ghost use Rattle.std.specs.Prelude.{◌≡◌};
ghost use Rattle.layout.specs.Refusals.{told};
ghost use Rattle.layout.specs.Checks.{record_head};

use super::{check_length, check_version};
use crate::places::record_length;
use crate::refusals::{Reason, Refusal};

#[tactic(auto, unfolding(crate::specs::Checks::record_head, definitions::specs::Refusals::check2))]
pub fn check_head(last: u8, r: &[u8]) -> Result<(), Refusal>
    ensures { told result ≡ record_head last r.now }
{
    check_length(r, 5)?;
    check_version(r)?;
    if r.len() != record_length(last) {
        return Err(Reason::LengthForYear.at(0));
    }
    Ok(())
}
