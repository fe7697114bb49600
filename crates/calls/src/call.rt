// The calls by their letters: the table of docs/CALLS.md.
ghost use Rattle.calls.specs.Letters.{Names};

use crate::stop::Stop;

#[derive(Clone, Copy, Debug, PartialEq, Eq)]
pub enum Call {
    Open,
    Judge,
    Sweep,
    Read,
    Page,
    Ultimate,
    Strike,
    Residues,
    Figures,
    Row,
    Close,
}

impl TryFrom<u8> for Call {
    type Error = Stop;

    ghost try_from_gives = { Names };

    fn try_from(letter: u8) -> Result<Self, Stop> {
        match letter {
            b'o' => Ok(Call::Open),
            b'j' => Ok(Call::Judge),
            b's' => Ok(Call::Sweep),
            b'r' => Ok(Call::Read),
            b'p' => Ok(Call::Page),
            b'u' => Ok(Call::Ultimate),
            b'k' => Ok(Call::Strike),
            b'd' => Ok(Call::Residues),
            b'f' => Ok(Call::Figures),
            b'w' => Ok(Call::Row),
            b'c' => Ok(Call::Close),
            _ => Err(Stop::Script),
        }
    }
}
