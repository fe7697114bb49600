// A text that is gathered whole before it is written.
ghost use Rattle.std.specs.Prelude.{◌≡◌, take};
ghost use Rattle.text.specs.Added.{OnPage};

// What is printed: the bytes up to `end`. For every input there is room for all of it.
#[derive(Drop)]
pub struct Printed {
    pub bytes: [u8; 4096],
    pub end: usize,
    pub ghost inside: { OnPage end bytes },
}

impl Printed {
    pub fn text(&self) -> &[u8]
        ensures { result.now ≡ take self.now.end self.now.bytes }
    {
        &self.bytes[..self.end]
    }
}
