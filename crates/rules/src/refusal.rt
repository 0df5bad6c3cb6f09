// A failed test: as a reader tells it, which knows no offset; and as a frame's refusal, with its place.
ghost use Rattle.std.specs.Prelude.{◌≡◌};
ghost use Rattle.rules.specs.Named.{layer_number};
ghost use Rattle.rules.specs.Paper.{fault_on_paper, refusal_on_paper};
ghost use Rattle.rules.specs.Test.{bound_by, placed};

use crate::{Kind, Layer, RoomSource, Source};

// What bounds the bytes that a test counts: the room, or the value of a length field.
#[derive(Clone, Copy, Debug, PartialEq, Eq)]
pub enum Bound {
    Room,
    Ipv4TotalLength,
    UdpLength,
}

impl Bound {
    // The source that a refusal names, in a room that `room` set.
    pub fn source(self, room: RoomSource) -> Source
        ensures { result ≡ bound_by self room }
    {
        match self {
            Bound::Room => Source::from(room),
            Bound::Ipv4TotalLength => Source::Ipv4,
            Bound::UdpLength => Source::Udp,
        }
    }
}

// What a reader can tell from its own bytes.
#[derive(Clone, Copy, Debug, PartialEq, Eq)]
pub enum Fault {
    TooShort {
        required: usize,
        have: usize,
        layer: Layer,
        bound: Bound,
    },
    Ipv4Version {
        version: usize,
    },
    SmallIhl {
        ihl: usize,
    },
    Ipv6Version {
        version: usize,
    },
    ZeroAuthLength,
    SmallDataOffset {
        value: usize,
    },
}

impl Fault {
    // The refusal of the header at `offset`, in a room that `room` set.
    pub fn at(self, offset: usize, room: RoomSource) -> Refusal
        ensures { refusal_on_paper result ≡ placed (fault_on_paper self) offset room }
    {
        match self {
            Fault::TooShort {
                required,
                have,
                layer,
                bound,
            } => {
                let source = bound.source(room);
                Refusal::TooShort {
                    offset,
                    required,
                    have,
                    layer,
                    source,
                }
            }
            Fault::Ipv4Version { version } => Refusal::Ipv4Version { offset, version },
            Fault::SmallIhl { ihl } => Refusal::SmallIhl { offset, ihl },
            Fault::Ipv6Version { version } => Refusal::Ipv6Version { offset, version },
            Fault::ZeroAuthLength => Refusal::ZeroAuthLength { offset },
            Fault::SmallDataOffset { value } => Refusal::SmallDataOffset { offset, value },
        }
    }
}

#[derive(Clone, Copy, Debug, PartialEq, Eq)]
pub enum Refusal {
    TooShort {
        offset: usize,
        required: usize,
        have: usize,
        layer: Layer,
        source: Source,
    },
    Ipv4Version {
        offset: usize,
        version: usize,
    },
    SmallIhl {
        offset: usize,
        ihl: usize,
    },
    Ipv6Version {
        offset: usize,
        version: usize,
    },
    HopByHopNotAtStart {
        offset: usize,
    },
    ZeroAuthLength {
        offset: usize,
    },
    SmallDataOffset {
        offset: usize,
        value: usize,
    },
}

// A refusal as document 01's table has it: its number, its layer's number and its offset, and what else its row
// carries, in the table's order (required, have, the source's number; or the one value), zeros after that. C reads this struct, so all are numbers.
#[repr(C)]
#[derive(Clone, Copy, Debug, Default, PartialEq, Eq)]
pub struct Row {
    pub number: usize,
    pub layer: usize,
    pub offset: usize,
    pub values: [usize; 3],
}

impl Refusal {
    // The layer whose test failed.
    pub fn layer(self) -> Layer
        ensures { layer_number result ≡ (refusal_on_paper self).layer }
    {
        match self {
            Refusal::TooShort { layer, .. } => layer,
            Refusal::Ipv4Version { .. } | Refusal::SmallIhl { .. } => Layer::Of(Kind::Ipv4),
            Refusal::Ipv6Version { .. } => Layer::Of(Kind::Ipv6),
            Refusal::HopByHopNotAtStart { .. } => Layer::Of(Kind::HopByHop),
            Refusal::ZeroAuthLength { .. } => Layer::Of(Kind::Auth),
            Refusal::SmallDataOffset { .. } => Layer::Of(Kind::Tcp),
        }
    }
}

impl From<Refusal> for Row {
    ghost from_gives = { λ refusal row. row ≡ refusal_on_paper refusal };

    fn from(refusal: Refusal) -> Row {
        let layer = refusal.layer().number();
        match refusal {
            Refusal::TooShort {
                offset,
                required,
                have,
                source,
                ..
            } => Row {
                number: 1,
                layer,
                offset,
                values: [required, have, source.number()],
            },
            Refusal::Ipv4Version { offset, version } => Row {
                number: 2,
                layer,
                offset,
                values: [version, 0, 0],
            },
            Refusal::SmallIhl { offset, ihl } => Row {
                number: 3,
                layer,
                offset,
                values: [ihl, 0, 0],
            },
            Refusal::Ipv6Version { offset, version } => Row {
                number: 4,
                layer,
                offset,
                values: [version, 0, 0],
            },
            Refusal::HopByHopNotAtStart { offset } => Row {
                number: 5,
                layer,
                offset,
                values: [0, 0, 0],
            },
            Refusal::ZeroAuthLength { offset } => Row {
                number: 6,
                layer,
                offset,
                values: [0, 0, 0],
            },
            Refusal::SmallDataOffset { offset, value } => Row {
                number: 7,
                layer,
                offset,
                values: [value, 0, 0],
            },
        }
    }
}
