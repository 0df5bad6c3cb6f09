// Where a number leads, and where in an IPv6 chain it stands.
use crate::{Kind, Stop};

// To a header of a kind, to a stop, or to a hop-by-hop header that is not at the start of its chain.
#[derive(Clone, Copy, Debug, PartialEq, Eq)]
pub enum Turn {
    Opens(Kind),
    Stops(Stop),
    LateHopByHop,
}

// "Number 0 is hop-by-hop directly after the IPv6 header; later in an IPv6 chain it is refusal 5."
#[derive(Clone, Copy, Debug, PartialEq, Eq)]
pub enum ChainPlace {
    Directly,
    Later,
}
