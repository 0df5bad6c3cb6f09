// Why the walk of an accepted frame stopped, with its number on paper; and the payload where it stopped.
ghost use Rattle.std.specs.Prelude.{◌≡◌};
ghost use Rattle.rules.specs.Named.{stop_number};

use crate::{Number, Range};

#[derive(Clone, Copy, Debug, PartialEq, Eq)]
pub enum Stop {
    EtherTypeNotOpened,
    TagsFull,
    Fragment,
    IpNumberNotOpened,
    TransportRead,
}

impl Stop {
    // A method and no `From`, as of `Kind`.
    pub fn number(self) -> usize
        ensures { result ≡ stop_number self }
    {
        match self {
            Stop::EtherTypeNotOpened => 1,
            Stop::TagsFull => 2,
            Stop::Fragment => 3,
            Stop::IpNumberNotOpened => 4,
            Stop::TransportRead => 5,
        }
    }
}

// Why the walk stopped, the number that names the payload, and the payload's range.
#[derive(Clone, Copy, Debug, PartialEq, Eq)]
pub struct Ending {
    pub payload: Range,
    pub number: Number,
    pub stop: Stop,
}
