// Where the walk stands, and what it tells of a header.
use crate::{EtherType, IpNumber, Kind, RoomSource};

// The number that names what follows: an EtherType is never taken for an IP number.
#[derive(Clone, Copy, Debug, PartialEq, Eq)]
pub enum Number {
    Link(EtherType),
    Ip(IpNumber),
}

// What is known where a header stands, besides its kind and offset.
#[derive(Clone, Copy, Debug, PartialEq, Eq)]
pub struct Room {
    // where the room ends, counted from the frame's start
    pub end: usize,
    // tags held, the header itself included
    pub tags: usize,
    // the version of the IP header that the room lies in, 0 before any; a number and no kind, since `header_at` and `next` take any
    pub version: usize,
    // IP headers met, the header itself included
    pub ips: usize,
    pub source: RoomSource,
    // a fragmenting header was met in this packet
    pub mark: bool,
}

#[derive(Clone, Copy, Debug, PartialEq, Eq)]
pub struct Place {
    pub at: usize,
    pub room: Room,
    pub kind: Kind,
}

// A header's answer: the number of its kind, its offset and its length. No kind has the number 0: a slot of zeros is no header. C reads this
// struct, so the kind is a number and no `Kind`.
#[repr(C)]
#[derive(Clone, Copy, Debug, Default, PartialEq, Eq)]
pub struct Header {
    pub kind: usize,
    pub at: usize,
    pub len: usize,
}

// How many numbers a header is where headers are written as numbers: its fields, in this order.
pub const HEADER_WORDS: usize = 3;

// Some bytes of the frame: their offset from its start, and how many.
#[repr(C)]
#[derive(Clone, Copy, Debug, Default, PartialEq, Eq)]
pub struct Range {
    pub at: usize,
    pub len: usize,
}
