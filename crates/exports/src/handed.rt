// What the exports hand over the boundary: document 01's numbers and places, in structs laid out as C lays them out. A part that
// a frame doesn't have is all zeros; no kind, no stop and no refusal has the number 0.
use rules::ether_type::TAG_LIMIT;
use rules::{Header, Range, Row};
use tcp_options::OptionRow;

// The version of this interface. It goes up with each change of a struct, of a function's parameters or of what a number means, so that a program
// that was compiled against another one can tell.
pub const INTERFACE: usize = 2;

// Statuses, and values beside them: C has no Option and no Result. Accepted, or what was asked for is there.
pub const THERE: usize = 0;

pub const NO_MORE: usize = 1;

pub const REFUSED: usize = 2;

pub const NO_SUCH_ENTRY: usize = 3;

// What the number is that names the payload.
pub const ETHER_TYPE: usize = 1;

pub const IP_NUMBER: usize = 2;

// An IP header with the range of its extensions.
#[repr(C)]
#[derive(Clone, Copy, Default)]
pub struct Net {
    pub header: Header,
    pub exts: Range,
    pub fragmented: bool,
}

// Of a tag its range is told: its kind is that of a tag.
#[repr(C)]
#[derive(Clone, Copy, Default)]
pub struct Packet {
    pub status: usize,
    pub link: Header,
    pub count: usize,
    pub tags: [Range; TAG_LIMIT],
    pub net: Net,
    pub transport: Header,
    pub payload: Range,
    // the number that names the payload, and which it is, an EtherType or an IP number
    pub number: usize,
    pub numbering: usize,
    pub stop: usize,
    pub refusal: Row,
}

#[repr(C)]
#[derive(Clone, Copy, Default)]
pub struct HeaderReply {
    pub status: usize,
    pub header: Header,
    pub refusal: Row,
}

#[repr(C)]
#[derive(Clone, Copy, Default)]
pub struct CountReply {
    pub status: usize,
    pub count: usize,
    pub refusal: Row,
}

// An option: the number of its kind, its offset and its size. Its refusal carries the option's offset alone.
#[repr(C)]
#[derive(Clone, Copy, Default)]
pub struct OptionReply {
    pub status: usize,
    pub kind: usize,
    pub at: usize,
    pub len: usize,
    pub refusal: OptionRow,
    // the kind is one of document 01's
    pub known: bool,
}
