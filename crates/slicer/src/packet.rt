// The reply to an accepted frame: what was found in it, and how the walk ended.
use rules::ether_type::TAG_LIMIT;
use rules::{Ending, Header, Range};

// An IP header and the range of its extensions, empty at the header's end where there are none.
#[derive(Clone, Copy, Debug, PartialEq, Eq)]
pub struct IpPart {
    pub header: Header,
    pub exts: Range,
    pub fragmented: bool,
}

// The tags stand in an array and a count, since there is no heap; slots past the count are zeros.
#[derive(Clone, Copy, Debug, PartialEq, Eq)]
pub struct SlicedPacket {
    pub link: Option<Header>,
    pub tags: [Header; TAG_LIMIT],
    pub count: usize,
    pub net: Option<IpPart>,
    pub transport: Option<Header>,
    pub ending: Ending,
}
