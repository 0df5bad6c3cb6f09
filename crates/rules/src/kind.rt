// Kinds of header, the layers that a refusal names, and what set a length; each with its number on paper.
ghost use Rattle.std.specs.Prelude.{◌≡◌};
ghost use Rattle.rules.specs.Named.{kind_number, layer_number, source_number};
ghost use Rattle.rules.specs.Test.{source_of};

#[derive(Clone, Copy, Debug, PartialEq, Eq)]
pub enum Kind {
    Ethernet2,
    Vlan,
    Ipv4,
    Ipv6,
    HopByHop,
    Routing,
    Destination,
    Fragment,
    Auth,
    Udp,
    Tcp,
}

impl Kind {
    // The paper's number. A method here and at the enums below and no `From`: `usize::from(kind)` doesn't say which number.
    pub fn number(self) -> usize
        ensures { result ≡ kind_number self }
    {
        match self {
            Kind::Ethernet2 => 1,
            Kind::Vlan => 2,
            Kind::Ipv4 => 3,
            Kind::Ipv6 => 4,
            Kind::HopByHop => 5,
            Kind::Routing => 6,
            Kind::Destination => 7,
            Kind::Fragment => 8,
            Kind::Auth => 9,
            Kind::Udp => 10,
            Kind::Tcp => 11,
        }
    }
}

// A header, or one of the length tests that document 01 gives a name of its own.
#[derive(Clone, Copy, Debug, PartialEq, Eq)]
pub enum Layer {
    Of(Kind),
    Ipv4Packet,
    Ipv6Packet,
    UdpPayload,
}

impl Layer {
    pub fn number(self) -> usize
        ensures { result ≡ layer_number self }
    {
        match self {
            Layer::Of(kind) => kind.number(),
            Layer::Ipv4Packet => 13,
            Layer::Ipv6Packet => 14,
            Layer::UdpPayload => 15,
        }
    }
}

// What set a room. UDP's length never does.
#[derive(Clone, Copy, Debug, PartialEq, Eq)]
pub enum RoomSource {
    Slice,
    Ipv4,
    Ipv6,
}

// What set the length that a refusal found too short.
#[derive(Clone, Copy, Debug, PartialEq, Eq)]
pub enum Source {
    Slice,
    Ipv4,
    Ipv6,
    Udp,
}

impl From<RoomSource> for Source {
    ghost from_gives = { λ room source. source ≡ source_of room };

    fn from(room: RoomSource) -> Source {
        match room {
            RoomSource::Slice => Source::Slice,
            RoomSource::Ipv4 => Source::Ipv4,
            RoomSource::Ipv6 => Source::Ipv6,
        }
    }
}

impl Source {
    pub fn number(self) -> usize
        ensures { result ≡ source_number self }
    {
        match self {
            Source::Slice => 1,
            Source::Ipv4 => 2,
            Source::Ipv6 => 3,
            Source::Udp => 4,
        }
    }
}
