// Why no call follows.
use std::io;

#[derive(Clone, Copy, Debug, PartialEq, Eq)]
pub enum Stop {
    // The input ended where a call would begin.
    Input,
    // The script is cut off inside a call, has an unknown letter or a length above 4,096.
    Script,
    // Nothing more can be written.
    Output,
}

impl From<io::Error> for Stop {
    fn from(_unwritten: io::Error) -> Stop {
        Stop::Output
    }
}
