// Numbers in base ten, right-aligned: in so many columns such a number is the end of its 20 bytes.
ghost use Rattle.std.specs.Prelude.{ℕ, List};
ghost use Rattle.definitions.specs.Text.{decimal, signed_decimal};
ghost use Rattle.text.specs.Digits.{Spelt};

// Spaces, and from `from` on the number, which has at most 20 bytes.
#[derive(Drop)]
pub struct Digits {
    pub bytes: [u8; 20],
    pub from: usize,
}

// A number that has a text.
pub trait Spell {
    ghost text: { Self → List ℕ };

    fn spell(self) -> Digits
        ensures { Spelt (text self) result };
}

impl Spell for u64 {
    ghost text = { decimal };

    // From the last digit to the first.
    fn spell(self) -> Digits {
        let mut bytes = [b' '; 20];
        let mut at = 19usize;
        let mut rest = self;
        while 9 < rest {
            bytes[at] = b'0' + (rest % 10) as u8;
            rest = rest / 10;
            at -= 1;
        }
        bytes[at] = b'0' + rest as u8;
        Digits { bytes, from: at }
    }
}

impl Spell for i64 {
    ghost text = { signed_decimal };

    // A sign where the number is below 0, and its size, which has at most 19 digits.
    fn spell(self) -> Digits {
        let Digits {
            mut bytes,
            mut from,
        } = self.unsigned_abs().spell();
        if self < 0 {
            from -= 1;
            bytes[from] = b'-';
        }
        Digits { bytes, from }
    }
}
